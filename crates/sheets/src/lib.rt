// Whole shift sheets with their output, computed by one theorem: what they say in specs/, the proof in proofs/, no code.
#![tactic(auto)]
