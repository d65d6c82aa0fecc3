// Lists of orders that are lent as three slices of numbers: the keys, the prices and the workers. Batches of calls lend theirs so.
#![tactic(auto)]

ghost use Rattle.orders.specs.Orders.{orders_of};

use lent::Lines;
use orders::Order;

// As many lines as the shortest of the three has.
#[derive(Clone, Copy)]
pub struct Parallel<'a> {
    pub keys: &'a [u32],
    pub prices: &'a [u32],
    pub workers: &'a [u32],
}

impl<'a> Lines for Parallel<'a> {
    ghost orders = { λ list. orders_of list.keys.now list.prices.now list.workers.now };

    #[tactic(auto, using(crate::proofs::Lists::line_rules))]
    fn count(&self) -> usize {
        self.keys
            .len()
            .min(self.prices.len())
            .min(self.workers.len())
    }

    #[tactic(auto, using(crate::proofs::Lists::line_rules))]
    fn line(&self, i: usize) -> Option<Order> {
        if i < self.count() {
            Some(Order {
                key: self.keys[i],
                price: self.prices[i],
                worker: self.workers[i],
            })
        } else {
            None
        }
    }
}
