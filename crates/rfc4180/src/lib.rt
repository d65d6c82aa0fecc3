// Comma-separated text after RFC 4180: the grammar, and a reader of records of two fields, as definitions in specs/ with their promise.
#![tactic(auto)]
