// Reply rounds (document 02, point 8), above the table: by the contracts of the functions below alone. Between opening and closing no record is kept; the
// table is.
#![tactic(auto)]

ghost use Rattle.std.specs.Prelude.{◌≡◌, false, [], ◌≤◌, length, replicate};
ghost use Rattle.state.specs.Model.{model_of};
ghost use Rattle.state.specs.Open.{open_call};
ghost use Rattle.rounds.specs.Rounds.{acks_of, is_short, Opens, Closes};
ghost use Rattle.serving.specs.Serving.{Opened};

use homes::Hash;
use lent::Lines;
use listing::count_keys;
use orders::Order;
use rest::{clear, list};
use serving::{acks_of, delete_each, find_each, insert_each};
use state::{Device, Phase, Refusal, Replied};

// ---- opening
// Opens an insert phase on an empty table of so many cells.
fn open_empty<L: Lines>(device: Device, crew: u64, hash: Hash, length: usize, list: L) -> Replied
    requires { length ≤ 8192 }
    ensures { result ≡ open_call (model_of device) 1 crew hash (replicate length 0) (L.orders list) }
{
    let empty = [0u64; Phase::GATEWAY_CELLS];
    Phase::open(device, 1, crew, hash, &empty[..length], list)
}

// Opens a round with the list sent: it is checked by an opening on an empty table of the lent table's length, then the lent table is emptied and filled by
// that phase.
pub fn open_round<L: Lines>(
    device: Device,
    crew: u64,
    hash: Hash,
    cells: &mut [u64],
    list: L,
) -> Result<(), Refusal>
    ensures { Opens (model_of device) crew hash cells.old (L.orders list)
        result cells.new }
{
    let length = cells.len();
    if !Phase::size_ok(device, length) {
        return Err(Refusal::Size);
    }
    let opened = open_empty(device, crew, hash, length, list);
    opened.reply?;
    clear(cells);
    insert_each(device, opened.phase, cells, list)
}

// ---- closing
// Opens a phase of a kind that reads no list: it is lent one without lines.
fn open_unlisted(device: Device, kind: u64, crew: u64, hash: Hash, cells: &[u64]) -> Replied
    ensures { result ≡ open_call (model_of device) kind crew hash cells.now [] }
{
    let unlisted: &[Order] = &[];
    Phase::open(device, kind, crew, hash, cells, unlisted)
}

// Whether the list is shorter than the table's count of keys, or there are fewer places for answers than acknowledgements.
fn is_short(cells: &[u64], acks: usize, answers: usize, out: usize) -> bool
    ensures { result ≡ is_short cells.now acks answers out }
{
    out < count_keys(cells) || answers < acks
}

// Closing behind the checks, made by the opening of a find phase and by `is_short`: that phase looks the acknowledgements up and tells each its answer, the
// next takes out those found, and what is left is listed. None of these is refused.
fn settle(
    device: Device,
    phase: Phase,
    cells: &mut [u64],
    keys: &[u32],
    workers: &[u32],
    answers: &mut [u32],
    out: &mut [u64],
) -> Result<usize, Refusal>
    requires { (phase.kind ≡ 3) × Opened (model_of device) [] phase cells.old
        × (is_short cells.old (length (acks_of keys.now workers.now)) (length answers.old) (length out.old) ≡ false) }
    ensures { Closes (model_of device) phase.crew phase.hash cells.old (acks_of keys.now workers.now)
        answers.old out.old result cells.new answers.new out.new }
{
    let _ = find_each(device, phase, cells, keys, workers, answers);
    let deleting = open_unlisted(device, 2, phase.crew as u64, phase.hash, cells);
    let next = deleting.phase;
    let _ = delete_each(device, next, cells, keys, workers, answers);
    list(device, phase.hash, cells, out)
}

// Closes a round with its acknowledgements (document 02: replies), lent as their keys and their workers. `answers` takes the number of each one's answer, `out`
// what is left.
pub fn close_round(
    device: Device,
    crew: u64,
    hash: Hash,
    cells: &mut [u64],
    keys: &[u32],
    workers: &[u32],
    answers: &mut [u32],
    out: &mut [u64],
) -> Result<usize, Refusal>
    ensures { Closes (model_of device) crew hash cells.old (acks_of keys.now workers.now)
        answers.old out.old result cells.new answers.new out.new }
{
    let finding = open_unlisted(device, 3, crew, hash, cells);
    finding.reply?;
    if is_short(cells, acks_of(keys, workers), answers.len(), out.len()) {
        return Err(Refusal::ShortList);
    }
    settle(device, finding.phase, cells, keys, workers, answers, out)
}
