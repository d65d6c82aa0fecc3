// Lists of calls given as numbers, and their answers as numbers: definitions and promises in specs/, lemmas in proofs/, no code.
#![tactic(auto)]
