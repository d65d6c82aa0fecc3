// Lists of calls.
#![tactic(auto)]
