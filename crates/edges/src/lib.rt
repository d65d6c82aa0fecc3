// The kiosk at its limits beside the gateway, computed, and tables that close alike in both: what they say in specs/, the proofs in proofs/, no code.
#![tactic(auto)]
