// Whole phases over lists of orders that come at once: each order is given, and turns are dealt until it is finished. By the contracts of the calls and of
// `dealing::run` alone.
#![tactic(auto)]

ghost use Rattle.std.specs.Prelude.{◌≡◌, false, [], ◌++◌, ◌≤◌, length, drop};
ghost use Rattle.homes.specs.Homes.{spread};
ghost use Rattle.prices.specs.Contents.{label};
ghost use Rattle.prices.specs.Priced.{priced_layout, without_labels};
ghost use Rattle.state.specs.Model.{gateway, model_of};
ghost use Rattle.state.specs.Refusals.{reply_number};
ghost use Rattle.protocol.specs.Calls.{order_found};
ghost use Rattle.dealing.specs.Promise.{Runs};
ghost use Rattle.dealing.specs.Reached.{Led};
ghost use Rattle.rounds.specs.Rounds.{ack_with, acks_of, sent_entries, ack_reply, ack_numbers, acked, orders_out};
ghost use Rattle.serving.specs.Serving.{Opened, Served, found_number, Answered};

use calls::{close, order_found};
use dealing::{Dealt, Ended, run};
use lent::Lines;
use orders::Order;
use state::{Device, Phase, Refusal};

// One order, served: by a line that was found, or for the worker and the key handed in.
fn serve_order(
    device: Device,
    phase: Phase,
    cells: &mut [u64],
    found: Option<Order>,
    worker: usize,
    key: u32,
) -> Dealt
    requires { Led gateway (order_found (model_of device) phase found worker key).phase cells.old
        × ((order_found (model_of device) phase found worker key).phase.shut ≡ false) }
    ensures { Runs gateway (order_found (model_of device) phase found worker key).phase cells.old (record { dealt = result; table = cells.new }) }
{
    let ordered = order_found(device, phase, found, worker, key);
    let given = ordered.phase;
    run(given, cells)
}

// ---- insert
// Serves every line of the list that the phase was opened with, and closes it.
pub fn insert_each<L: Lines>(
    device: Device,
    phase: Phase,
    cells: &mut [u64],
    list: L,
) -> Result<(), Refusal>
    requires { (phase.kind ≡ 1) × Opened (model_of device) (L.orders list) phase cells.old }
    ensures { (result ≡ Ok tt) × (cells.new ≡ priced_layout (length cells.old) label (spread phase.hash (length cells.old))
        (sent_entries (L.orders list) ++ cells.old)) }
{
    let mut next = phase;
    for i in 0..list.count() {
        let served = serve_order(device, next, cells, list.line(i), 0, 0);
        next = served.phase;
    }
    let closed = close(device, next);
    closed.reply
}

// ---- find
// How many acknowledgements there are.
#[tactic(auto, using(crate::proofs::Counted::ack_rules))]
pub fn acks_of(keys: &[u32], workers: &[u32]) -> usize
    ensures { result ≡ length (acks_of keys.now workers.now) }
{
    keys.len().min(workers.len())
}

fn found_number(finish: Option<Ended>) -> u32
    ensures { result ≡ found_number finish }
{
    match finish {
        Some(Ended::Price(..)) => 0,
        _ => Refusal::Absent.number(),
    }
}

// A phase, with the number of the answer of an acknowledgement.
#[derive(Clone, Copy)]
pub struct Told {
    pub phase: Phase,
    pub number: u32,
}

// One acknowledgement: its key is looked up, unless it is blank or the crew lacks its worker. Both are tested here, since a call has 6 before 7 and an
// acknowledgement 7 before 6.
fn find_one(device: Device, phase: Phase, cells: &mut [u64], key: u32, worker: u32) -> Told
    requires { Served device 3 phase.crew phase.hash [] cells.old phase cells.old }
    ensures { Served device 3 phase.crew phase.hash [] cells.old result.phase cells.old × (cells.new ≡ cells.old)
        × (result.number ≡ reply_number (ack_reply phase.crew cells.old (ack_with key worker))) }
{
    if key == 0 {
        return Told {
            phase,
            number: Refusal::Blank.number(),
        };
    }
    if phase.crew <= worker {
        return Told {
            phase,
            number: Refusal::NoWorker.number(),
        };
    }
    let served = serve_order(device, phase, cells, None, worker as usize, key);
    let next = served.phase;
    let finish = served.finishes[worker as usize];
    Told {
        phase: next,
        number: found_number(finish),
    }
}

// Looks every acknowledgement up, tells each its answer and closes the phase.
#[tactic(auto, using(crate::proofs::Counted::ack_rules))]
pub fn find_each(
    device: Device,
    phase: Phase,
    cells: &mut [u64],
    keys: &[u32],
    workers: &[u32],
    answers: &mut [u32],
) -> Result<(), Refusal>
    requires { (phase.kind ≡ 3) × Opened (model_of device) [] phase cells.old × (length (acks_of keys.now workers.now) ≤ length answers.old) }
    ensures { (result ≡ Ok tt) × (cells.new ≡ cells.old)
        × (answers.new ≡ ack_numbers phase.crew cells.old (acks_of keys.now workers.now)
        ++ drop (length (acks_of keys.now workers.now)) answers.old) }
{
    let mut next = phase;
    for i in 0..acks_of(keys, workers) {
        let told = find_one(device, next, cells, keys[i], workers[i]);
        next = told.phase;
        answers[i] = told.number;
    }
    let closed = close(device, next);
    closed.reply
}

// ---- delete
// Takes out the keys of the acknowledgements whose answer is 0, and closes the phase.
#[tactic(auto, using(crate::proofs::Counted::ack_rules))]
pub fn delete_each(
    device: Device,
    phase: Phase,
    cells: &mut [u64],
    keys: &[u32],
    workers: &[u32],
    answers: &[u32],
) -> Result<(), Refusal>
    requires { (phase.kind ≡ 2) × Opened (model_of device) [] phase cells.old × Answered phase.crew (acks_of keys.now workers.now) answers.now }
    ensures { (result ≡ Ok tt) × (cells.new ≡ priced_layout (length cells.old) label (spread phase.hash (length cells.old))
        (without_labels label (orders_out (acked (acks_of keys.now workers.now) answers.now)) cells.old)) }
{
    let mut next = phase;
    for i in 0..acks_of(keys, workers) {
        let accepted = answers[i] == 0;
        if accepted {
            let served = serve_order(device, next, cells, None, workers[i] as usize, keys[i]);
            next = served.phase;
        }
    }
    let closed = close(device, next);
    closed.reply
}
