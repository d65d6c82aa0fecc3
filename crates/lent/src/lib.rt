// Lists of orders that are lent, in whatever form, and the check of their lines.
#![tactic(auto)]

ghost use Rattle.std.specs.Prelude.{◌≡◌, List, length};
ghost use Rattle.orders.specs.declared.Order.{Order};
ghost use Rattle.orders.specs.Orders.{line_at, lines_fault};

use orders::{Fault, Order};

// A list of orders, in whatever form it is lent.
pub trait Lines: Copy {
    ghost orders: { Self → List Order };

    // How many lines it has.
    fn count(&self) -> usize
        ensures { result ≡ length (orders self.now) };

    // Its line `i`, if it has one.
    fn line(&self, i: usize) -> Option<Order>
        ensures { result ≡ line_at (orders self.now) i };
}

// Lent as a slice of orders.
impl<'a> Lines for &'a [Order] {
    ghost orders = { λ list. list.now };

    fn count(&self) -> usize {
        self.len()
    }

    fn line(&self, i: usize) -> Option<Order> {
        self.get(i).copied()
    }
}

// Lent as an array of orders.
impl<'a, const N: usize> Lines for &'a [Order; N] {
    ghost orders = { λ list. list.now };

    fn count(&self) -> usize {
        let slice: &[Order] = *self;
        slice.count()
    }

    fn line(&self, i: usize) -> Option<Order> {
        let slice: &[Order] = *self;
        slice.line(i)
    }
}

// What is wrong with the earliest line that is not good.
#[tactic(auto, using(crate::proofs::Faults::fault_rules))]
pub fn lines_fault<L: Lines>(list: L, crew: u32) -> Result<(), Fault>
    ensures { result ≡ lines_fault crew (L.orders list) }
{
    for i in 0..list.count() {
        list.line(i).unwrap().check(crew)?;
    }
    Ok(())
}
