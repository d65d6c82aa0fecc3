// What each model promises, and the kiosk beside the gateway: definitions and theorems alone.
#![tactic(auto)]
