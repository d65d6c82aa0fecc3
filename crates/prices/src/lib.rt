// Contents of cells, a label with a price: definitions and promises in specs/, lemmas in proofs/. In code a content is taken apart by these numbers alone.
// The content of a cell is a label times this, plus the price.
#![tactic(auto)]

pub const PRICES: u64 = 4294967296;

// No price is higher.
pub const HIGHEST: u64 = 9999999;
