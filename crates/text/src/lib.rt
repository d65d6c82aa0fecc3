// Text: fields, numbers and digits, as definitions in specs/ with their promise, and laws in proofs/. Here are only the types that they need.
#![tactic(auto)]

// The greatest number that is read.
pub const GREATEST: u64 = 4294967295;
// How many digits it has: no number that is read has more.
pub const LONGEST: usize = 10;

// What a field of a line writes: a number, and the place where the field ends.
#[derive(Clone, Copy)]
pub struct Scanned {
    pub number: u32,
    pub end: usize,
}

// The digits or the field that begin at a place of a text: the number that they write, if they write one, and the place behind them.
#[derive(Clone, Copy)]
pub struct Run {
    pub number: Option<u32>,
    pub end: usize,
}
