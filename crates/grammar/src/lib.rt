// The grammar of dictionary and value (document 02, A6), in specs; that a reading is unique, in proofs. No code.
#![tactic(auto)]
