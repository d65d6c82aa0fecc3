// Corollaries of the promises on calls and tables, for concrete ones: what they say in specs/, the proofs in proofs/, no code.
#![tactic(auto)]
