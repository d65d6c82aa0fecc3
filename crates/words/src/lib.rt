// Occupancy words, the keys in cell order and the places of the groups: definitions and promises in specs/, lemmas in proofs/, no code.
#![tactic(auto)]
