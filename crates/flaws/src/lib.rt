// Why a table is unsound, for any home rule: definitions and promises in specs/, lemmas in proofs/. No code.
#![tactic(auto)]
