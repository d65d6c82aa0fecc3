// Till lists (document 02, point 4) as definitions in specs/, with their promise. Here are only the types that they need.
#![tactic(auto)]

ghost use Rattle.std.specs.Prelude.{◌≡◌};
ghost use Rattle.till.specs.Refused.{refusal_of};

use state::Refusal;

// A record of a text: a label and a price, and the place of the next record.
#[derive(Clone, Copy)]
pub struct Record {
    pub key: u32,
    pub price: u32,
    pub next: usize,
}

// What is bad where a record should begin: broken if no record of two fields stands there, wrong if one of its fields is no number.
#[derive(Clone, Copy)]
pub enum Bad {
    Broken,
    Wrong,
}

impl From<Bad> for Refusal {
    ghost from_gives = { λ bad why. why ≡ refusal_of bad };

    fn from(bad: Bad) -> Refusal {
        match bad {
            Bad::Broken => Refusal::BadRecord,
            Bad::Wrong => Refusal::BadField,
        }
    }
}

// Where a text is read on, and the worker whose turn it is.
#[derive(Clone, Copy)]
pub struct Cursor {
    pub at: usize,
    pub worker: u32,
}

// What is known before the first order is written: how many orders there are to write, and the crew.
#[derive(Clone, Copy)]
pub struct Begun {
    pub lines: usize,
    pub crew: u32,
}
