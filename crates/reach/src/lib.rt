// How far one label reaches: definitions and promises in specs/, lemmas in proofs/. No code.
#![tactic(auto)]
