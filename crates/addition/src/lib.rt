// One new label put in by a shift, and taken out by another: definitions and promises in specs/, lemmas in proofs/. No code.
#![tactic(auto)]
