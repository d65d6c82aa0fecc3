// Orders of an insert phase (document 02, point 2: the list that a put-in opening is lent). The definitions are in specs/.
#![tactic(auto)]

ghost use Rattle.std.specs.Prelude.{◌≡◌};
ghost use Rattle.orders.specs.Orders.{line_fault};

use prices::HIGHEST;

// The first of the keys (labels) that are for factory tests: no order puts in one of them.
pub const FIRST_TEST: u32 = 4000000000;

// One line of a list of orders: a key (label), a price in cents, and the worker that it is for.
#[repr(C)]
#[derive(Clone, Copy)]
pub struct Order {
    pub key: u32,
    pub price: u32,
    pub worker: u32,
}

// What is wrong with a line.
#[derive(Clone, Copy)]
pub enum Fault {
    Blank,
    TestNumber,
    WrongPrice,
    NoWorker,
}

impl Order {
    // What is wrong with the line, for a crew of `crew` workers.
    #[tactic(auto, using(std::proofs::lemmas::Bool::Decides::nat_tests), unfolding(crate::specs::Orders::line_fault))]
    pub fn check(self, crew: u32) -> Result<(), Fault>
        ensures { result ≡ line_fault crew self }
    {
        if self.key == 0 {
            return Err(Fault::Blank);
        }
        if FIRST_TEST <= self.key {
            return Err(Fault::TestNumber);
        }
        if self.price < 1 {
            return Err(Fault::WrongPrice);
        }
        if HIGHEST < self.price as u64 {
            return Err(Fault::WrongPrice);
        }
        if crew <= self.worker {
            return Err(Fault::NoWorker);
        }
        Ok(())
    }
}
