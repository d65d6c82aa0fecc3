// Check, count and list as definitions (specs/), and that they say the truth. No code.
#![tactic(auto)]
