// Reply rounds: definitions and promises. No function stands here; those are in `polling`.
#![tactic(auto)]
