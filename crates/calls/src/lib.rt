// The calls on a phase: order, turn and close, in place and by value. Those by value are told the model by whose limits the phase is tested; what reads no
// limit is the same in every model.
#![tactic(auto, using(std::proofs::lemmas::Bool::Decides::nat_tests))]

ghost use Rattle.std.specs.Prelude.{◌≡◌, true, ◌<◌, length};
ghost use Rattle.prices.specs.Contents.{label, price_ok};
ghost use Rattle.activities.specs.Activities.{activity_ok};
ghost use Rattle.state.specs.Model.{gateway, model_of};
ghost use Rattle.state.specs.Refusals.{first_of};
ghost use Rattle.protocol.specs.Bars.{adds_test, mispriced, worker_bars};
ghost use Rattle.protocol.specs.Calls.{entry_for, close_call, order_found, order_call, turn_call, turn_table};
ghost use Rattle.protocol.specs.IsWellFormed.{is_well_formed};
ghost use Rattle.protocol.specs.Split.{one_order, one_turn, one_cells};
ghost use Rattle.calls.specs.Asking.{asked_for};
ghost use Rattle.calls.specs.Closing.{closed_in_place};

use activities::{Activity, Worker};
use formed::{all_idle, is_idle, is_well_formed};
use homes::Hash;
use lent::Lines;
use orders::{FIRST_TEST, Order};
use prices::{HIGHEST, PRICES};
use probing::{find_step, touched};
use protocol::{Given, Moved, Turned};
use rule::Answer;
use state::{Device, Phase, Refusal, Replied};
use steps::step;

// ---- order
// What an order call asks for: of which worker, for which key at which price.
#[derive(Clone, Copy)]
pub struct Asked {
    pub worker: usize,
    pub key: u32,
    pub price: u32,
}

// An insert phase reads the line that was found, if there is one, the others the worker and the key handed in.
pub fn asked_for(kind: u32, found: Option<Order>, worker: usize, key: u32) -> Option<Asked>
    ensures { result ≡ asked_for kind found worker key }
{
    if kind == 1 {
        let order = found?;
        Some(Asked {
            worker: order.worker as usize,
            key: order.key,
            price: order.price,
        })
    } else {
        Some(Asked {
            worker,
            key,
            price: 0,
        })
    }
}

// Whether the order would put in a key for factory tests: in the other kinds it is a key like any other.
fn adds_test(kind: u32, key: u32) -> bool
    ensures { result ≡ adds_test kind key }
{
    if kind == 1 { FIRST_TEST <= key } else { false }
}

// Whether a price may be kept with a key: from 1 to 9,999,999.
fn price_ok(price: u32) -> bool
    ensures { result ≡ price_ok price }
{
    if 1 <= price {
        price as u64 <= HIGHEST
    } else {
        false
    }
}

// The price is read in insert phases alone.
fn is_mispriced(kind: u32, price: u32) -> bool
    ensures { result ≡ mispriced kind price }
{
    if kind == 1 { !price_ok(price) } else { false }
}

// What an order is for: an insert takes the price along, the others go by the key alone.
fn entry_for(kind: u32, key: u32, price: u32) -> u64
    ensures { result ≡ entry_for kind key price }
{
    if kind == 1 {
        key as u64 * PRICES + price as u64
    } else {
        key as u64 * PRICES
    }
}

// The answer of an order to a worker with this activity.
fn one_reply(kind: u32, activity: Activity, key: u32, price: u32) -> Result<(), Refusal>
    ensures { result ≡ first_of (worker_bars kind activity key price) }
{
    if !is_idle(activity) {
        return Err(Refusal::Busy);
    }
    if key == 0 {
        return Err(Refusal::Blank);
    }
    if adds_test(kind, key) {
        return Err(Refusal::TestNumber);
    }
    if is_mispriced(kind, price) {
        return Err(Refusal::WrongPrice);
    }
    Ok(())
}

// An order to one worker by itself. The rest of its phase is not tested. All refusals share one way out, so that the worker is copied once.
pub fn one_order(kind: u32, hash: Hash, length: u32, worker: Worker, key: u32, price: u32) -> Given
    requires { 0 < length }
    ensures { result ≡ one_order gateway kind hash length worker key price }
{
    let activity = worker.activity;
    let reply = one_reply(kind, activity, key, price);
    match reply {
        Ok(()) => {
            let cell = homes::home(hash, length, key);
            let entry = entry_for(kind, key, price);
            Given {
                worker: Worker {
                    activity: Activity::Reading { entry, cell },
                },
                reply: Ok(()),
            }
        }
        Err(why) => Given {
            worker,
            reply: Err(why),
        },
    }
}

// ---- turn
// The turn of a worker that its phase may have, on a table as long as its phase says. Neither is tested.
pub fn one_turn(kind: u32, hash: Hash, size: u32, cells: &mut [u64], worker: Worker) -> Moved
    requires { (activity_ok kind size label worker.activity ≡ true) × (size ≡ length cells.old) }
    ensures { (result ≡ one_turn gateway kind hash size cells.old worker)
        × (cells.new ≡ one_cells gateway kind hash size cells.old worker) }
{
    let activity = worker.activity;
    let Some(cell) = touched(activity) else {
        return Moved {
            worker,
            reply: Ok(Answer::Idle),
        };
    };
    let outcome = step(kind, hash, size, activity, cells[cell as usize]);
    cells[cell as usize] = outcome.content;
    let next = outcome.activity;
    let answer = outcome.answer;
    Moved {
        worker: Worker { activity: next },
        reply: Ok(answer),
    }
}

// The same in a find phase, which leaves the table as it is and computes no home. Short enough to be part of its callers.
pub fn one_find(size: u32, cells: &[u64], worker: Worker) -> Moved
    requires { (activity_ok 3 size label worker.activity ≡ true) × (size ≡ length cells.now) }
    ensures { (ab : Hash) → (result ≡ one_turn gateway 3 ab size cells.now worker)
        × (cells.now ≡ one_cells gateway 3 ab size cells.now worker) }
{
    let activity = worker.activity;
    let Activity::Reading { cell, .. } = activity else {
        return Moved {
            worker,
            reply: Ok(Answer::Idle),
        };
    };
    let found = find_step(size, activity, cells[cell as usize]);
    let next = found.activity;
    let answer = found.answer;
    Moved {
        worker: Worker { activity: next },
        reply: Ok(answer),
    }
}

// ---- calls on a phase that stays in place
// It is tested before: to every model to which it is well formed, these are that model's calls.

// An order by a line that was found in the list lent, or by a worker and a key handed in.
pub fn order_in_place(
    phase: &mut Phase,
    found: Option<Order>,
    worker: usize,
    key: u32,
) -> Result<(), Refusal>
    requires { (d : Device) × (is_well_formed (model_of d) phase.old ≡ true) }
    ensures { (d : Device) → is_well_formed (model_of d) phase.old ≡ true
        → record { phase = phase.new; reply = result } ≡ order_found (model_of d) phase.old found worker key }
{
    if phase.shut {
        return Err(Refusal::Shut);
    }
    let Some(asked) = asked_for(phase.kind, found, worker, key) else {
        return Err(Refusal::NoLine);
    };
    let chosen = asked.worker;
    if phase.crew as usize <= chosen {
        return Err(Refusal::NoWorker);
    }
    let given = one_order(
        phase.kind,
        phase.hash,
        phase.length,
        phase.workers[chosen],
        asked.key,
        asked.price,
    );
    phase.workers[chosen] = given.worker;
    given.reply
}

// A turn of one worker.
pub fn turn_in_place(phase: &mut Phase, cells: &mut [u64], worker: usize) -> Result<Answer, Refusal>
    requires { (d : Device) × (is_well_formed (model_of d) phase.old ≡ true) }
    ensures { (d : Device) → is_well_formed (model_of d) phase.old ≡ true
        → (record { phase = phase.new; reply = result } ≡ turn_call (model_of d) phase.old cells.old worker)
        × (cells.new ≡ turn_table (model_of d) phase.old cells.old worker) }
{
    if phase.shut {
        return Err(Refusal::Shut);
    }
    if phase.length as usize != cells.len() {
        return Err(Refusal::OtherTable);
    }
    if phase.crew as usize <= worker {
        return Err(Refusal::NoWorker);
    }
    let moved = one_turn(
        phase.kind,
        phase.hash,
        phase.length,
        cells,
        phase.workers[worker],
    );
    phase.workers[worker] = moved.worker;
    moved.reply
}

// A close. It takes every record: also of one that is well formed to no model it is said what it does.
pub fn close_in_place(phase: &mut Phase) -> Result<(), Refusal>
    ensures any { record { phase = phase.new; reply = result } ≡ closed_in_place phase.old }
    ensures well_formed { (d : Device) → is_well_formed (model_of d) phase.old ≡ true
        → record { phase = phase.new; reply = result } ≡ close_call (model_of d) phase.old }
{
    if phase.shut {
        return Err(Refusal::Shut);
    }
    if !all_idle(&phase.workers) {
        return Err(Refusal::Working);
    }
    phase.shut = true;
    Ok(())
}

// ---- the calls by value
// The order call by what was found for it.
pub fn order_found(
    device: Device,
    mut phase: Phase,
    found: Option<Order>,
    worker: usize,
    key: u32,
) -> Replied
    ensures { result ≡ order_found (model_of device) phase found worker key }
{
    let reply = if is_well_formed(device, &phase) {
        order_in_place(&mut phase, found, worker, key)
    } else {
        Err(Refusal::Spoilt)
    };
    Replied { phase, reply }
}

// The order call: in an insert phase by line `line` of the list, in the others for the worker and the key that are handed in.
pub fn order<L: Lines>(
    device: Device,
    phase: Phase,
    list: L,
    line: usize,
    worker: usize,
    key: u32,
) -> Replied
    ensures { result ≡ order_call (model_of device) phase (L.orders list) line worker key }
{
    order_found(device, phase, list.line(line), worker, key)
}

// A turn of one worker of the phase.
pub fn turn(device: Device, mut phase: Phase, cells: &mut [u64], worker: usize) -> Turned
    ensures { (result ≡ turn_call (model_of device) phase cells.old worker) × (cells.new ≡ turn_table (model_of device) phase cells.old worker) }
{
    let reply = if is_well_formed(device, &phase) {
        turn_in_place(&mut phase, cells, worker)
    } else {
        Err(Refusal::Spoilt)
    };
    Turned { phase, reply }
}

pub fn close(device: Device, mut phase: Phase) -> Replied
    ensures { result ≡ close_call (model_of device) phase }
{
    let good = is_well_formed(device, &phase);
    let reply = if good {
        close_in_place(&mut phase)
    } else {
        Err(Refusal::Spoilt)
    };
    Replied { phase, reply }
}
