// Corollaries of the promises on sheets, for sheets that are written out: what they say in specs/, the proofs in proofs/, no code.
#![tactic(auto)]
