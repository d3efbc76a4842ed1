// The live tree of a reading, its texts, their paths and words (document 02, A11 and A12), in specs; laws in proofs. No code.
#![tactic(auto)]
