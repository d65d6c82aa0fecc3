// Whether a table and a lent list of orders have as many labels together as the table has cells, or more (document 02, point 2: refusal 9).
#![tactic(auto)]

ghost use Rattle.std.specs.Prelude.{◌≡◌, ◌++◌, ◌≤◌, leb, length};
ghost use Rattle.layout.specs.Layout.{size};
ghost use Rattle.prices.specs.Priced.{labels};
ghost use Rattle.prices.specs.Contents.{label};
ghost use Rattle.orders.specs.Orders.{ordered_keys};

use distinct::{mark, mark_cells};
use lent::Lines;

// Whether the labels of the table and of the orders together, each counted once, are as many as the cells or more. A function by itself, so that callers that
// come by without it do not reserve the room of its trie.
#[inline(never)]
#[tactic(auto, using(crate::proofs::Counts::count_rules))]
pub fn lines_crowded<L: Lines>(cells: &[u64], list: L) -> bool
    requires { length cells.now ≤ 8192 }
    ensures { result ≡ leb (length cells.now) (size (labels label cells.now ++ ordered_keys (L.orders list))) }
{
    let mut trie = [0u32; 40960];
    let limit = cells.len();
    let mut count = mark_cells(&mut trie, limit, cells);
    for i in 0..list.count() {
        count = mark(&mut trie, count, limit, list.line(i).unwrap().key);
    }
    limit <= count
}
