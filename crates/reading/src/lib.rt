// Till lists read: how many records a text has, the orders of its records one by one, and the list lent as three parallel slices.
#![tactic(auto)]

ghost use Rattle.std.specs.Prelude.{◌≡◌, length};
ghost use Rattle.orders.specs.Orders.{orders_of};
ghost use Rattle.state.specs.Model.{model_of};
ghost use Rattle.till.specs.Places.{records_of, dealt_at, begun_of};
ghost use Rattle.till.specs.Till.{reading_of, following, till_call, keys_after, prices_after, workers_after};

use lent::Lines;
use orders::Order;
use parallel::Parallel;
use splitting::record_at;
use state::{Device, Phase, Refusal};
use till::{Bad, Begun, Cursor};

// How many records the text has, or what is bad in the earliest one that is.
fn count_records(text: &[u8]) -> Result<usize, Bad>
    ensures { result ≡ records_of (reading_of text.now) }
{
    if text.is_empty() {
        return Err(Bad::Broken);
    }
    let mut at = 0;
    let mut count = 0;
    while at < text.len() {
        let record = record_at(text, at)?;
        at = record.next;
        count += 1;
    }
    Ok(count)
}

// What there is to write into a list with so many places, or why the call is refused: nothing is written before this is known.
pub fn begin(device: Device, text: &[u8], count: u64, places: usize) -> Result<Begun, Refusal>
    ensures { result ≡ begun_of (model_of device) text.now count places }
{
    if !Phase::crew_ok(device, count as usize) {
        return Err(Refusal::Crew);
    }
    let lines = count_records(text)?;
    if places < lines {
        return Err(Refusal::ShortList);
    }
    let crew = count as u32;
    Ok(Begun { lines, crew })
}

// The worker behind `worker` in a crew of so many.
fn following(crew: u32, worker: u32) -> u32
    ensures { result ≡ following crew worker }
{
    let next = (worker as u64) + 1;
    if next < crew as u64 { next as u32 } else { 0 }
}

// The order of the record at the cursor, which then stands where the text goes on. Where no record is, it is blank, and the cursor stays.
pub fn deal(text: &[u8], crew: u32, cursor: &mut Cursor) -> Order
    ensures order { result ≡ (dealt_at crew text.now cursor.old).order }
    ensures next { cursor.new ≡ (dealt_at crew text.now cursor.old).next }
{
    let Ok(record) = record_at(text, cursor.at) else {
        return Order {
            key: 0,
            price: 0,
            worker: 0,
        };
    };
    let order = Order {
        key: record.key,
        price: record.price,
        worker: cursor.worker,
    };
    let worker = following(crew, cursor.worker);
    *cursor = Cursor {
        at: record.next,
        worker,
    };
    order
}

// Reads a till list into a list of orders that is lent as its keys, its prices and its workers.
pub fn read_till_parallel(
    device: Device,
    text: &[u8],
    count: u64,
    keys: &mut [u32],
    prices: &mut [u32],
    workers: &mut [u32],
) -> Result<usize, Refusal>
    ensures { (result ≡ till_call (model_of device) text.now count (length (orders_of keys.old prices.old workers.old)))
        × (keys.new ≡ keys_after (model_of device) text.now count keys.old prices.old workers.old)
        × (prices.new ≡ prices_after (model_of device) text.now count keys.old prices.old workers.old)
        × (workers.new ≡ workers_after (model_of device) text.now count keys.old prices.old workers.old) }
{
    let lent = Parallel {
        keys: &*keys,
        prices: &*prices,
        workers: &*workers,
    };
    let begun = begin(device, text, count, lent.count())?;
    let mut cursor = Cursor { at: 0, worker: 0 };
    for i in 0..begun.lines {
        let order = deal(text, begun.crew, &mut cursor);
        keys[i] = order.key;
        prices[i] = order.price;
        workers[i] = order.worker;
    }
    Ok(begun.lines)
}
