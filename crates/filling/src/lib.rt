// A till list read into a lent list of orders (document 02, point 4).
#![tactic(auto)]

ghost use Rattle.std.specs.Prelude.{◌≡◌, length};
ghost use Rattle.state.specs.Model.{model_of};
ghost use Rattle.till.specs.Till.{till_call, till_after};

use orders::Order;
use reading::{begin, deal};
use state::{Device, Refusal};
use till::Cursor;

// The records of the text become the orders at the front of the list, their workers dealt in turn from 0 below `count`. The answer is the number of
// records, or a refusal, and then nothing is written.
pub fn read_till(
    device: Device,
    text: &[u8],
    count: u64,
    orders: &mut [Order],
) -> Result<usize, Refusal>
    ensures { (result ≡ till_call (model_of device) text.now count (length orders.old))
        × (orders.new ≡ till_after (model_of device) text.now count orders.old) }
{
    let begun = begin(device, text, count, orders.len())?;
    let mut cursor = Cursor { at: 0, worker: 0 };
    for order in orders[..begun.lines].iter_mut() {
        *order = deal(text, begun.crew, &mut cursor);
    }
    Ok(begun.lines)
}
