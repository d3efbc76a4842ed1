// The one pair of bytes for one live tree (document 02, A11), in specs; its laws, in proofs. No code.
#![tactic(auto)]
