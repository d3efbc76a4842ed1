// That every finished run's dictionary and value are accepted (document 02, A6), in proofs; a kept tree as a reading, in specs. No code.
#![tactic(auto)]
