// Worked examples as tables, computed by one theorem: what they say in specs/, the proofs in proofs/, no code.
#![tactic(auto)]
