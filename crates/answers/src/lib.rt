// The calls for C and Rust in either model, with their answers as numbers: each model's exported functions call them.
#![tactic(auto)]

ghost use Rattle.std.specs.Prelude.{◌≡◌};
ghost use Rattle.homes.specs.Homes.{hash_of};
ghost use Rattle.state.specs.Model.{model_of};
ghost use Rattle.tables.specs.Calls.{check_call, count_call};
ghost use Rattle.numbered.specs.Numbers.{reply_answer};
ghost use Rattle.numbered.specs.Batch.{Promised};
ghost use Rattle.rounds.specs.Rounds.{acks_of};
ghost use Rattle.migration.specs.Lists.{MoveNumbers, MovePromised};
ghost use Rattle.answers.specs.Numbers.{counted_answer, ListNumbers, TillNumbers, RunNumbers, OpenNumbers, CloseNumbers};

use homes::Hash;
use lent::Lines;
use singly::{Calls, refusal_answer, reply_answer};
use state::{Device, Refusal, Replied};

// ---- answers
// The count, or the number of the refusal.
pub fn counted_answer(counted: Result<usize, Refusal>) -> u64
    ensures { result ≡ counted_answer counted }
{
    match counted {
        Ok(count) => count as u64,
        Err(why) => refusal_answer(why),
    }
}

// The number of the answer of an opening.
pub fn opened_answer(opened: Replied) -> u64
    ensures { result ≡ reply_answer opened.reply }
{
    let reply = opened.reply;
    reply_answer(reply)
}

// ---- calls
// Whether the table is sound by a and b: 0, or the number of the refusal.
pub fn check(device: Device, a: u32, b: u32, cells: &[u64]) -> u64
    ensures { result ≡ reply_answer (check_call (model_of device) (hash_of a b) cells.now) }
{
    let checked = rest::check(device, Hash { a, b }, cells);
    reply_answer(checked)
}

// How many keys the table has.
pub fn count(device: Device, a: u32, b: u32, cells: &[u64]) -> u64
    ensures { result ≡ counted_answer (count_call (model_of device) (hash_of a b) cells.now) }
{
    let counted = rest::count(device, Hash { a, b }, cells);
    counted_answer(counted)
}

// Lists the entries, each key with its price, in cell order at the front of `out`.
pub fn list(device: Device, a: u32, b: u32, cells: &[u64], out: &mut [u64]) -> u64
    ensures { ListNumbers (model_of device) (hash_of a b) cells.now out.old result out.new }
{
    let listed = rest::list(device, Hash { a, b }, cells, out);
    counted_answer(listed)
}

// Reads a till list into a list of orders, lent as its keys, its prices and its workers, for a crew of so many: how many records the text has.
pub fn read_till(
    device: Device,
    text: &[u8],
    count: u64,
    keys: &mut [u32],
    prices: &mut [u32],
    workers: &mut [u32],
) -> u64
    ensures { TillNumbers (model_of device) text.now count keys.old prices.old workers.old
        result keys.new prices.new workers.new }
{
    let read = reading::read_till_parallel(device, text, count, keys, prices, workers);
    counted_answer(read)
}

// Opens a phase, an insert phase with a list of orders, and if the opening is accepted, applies calls, each lent that list: 0, or the number of the
// opening's refusal. If SINGLY, each call goes by value with the phase tested at each, as single calls do.
pub fn run_calls<const SINGLY: bool, L: Lines>(
    device: Device,
    kind: u64,
    count: u64,
    a: u32,
    b: u32,
    cells: &mut [u64],
    list: L,
    calls: Calls,
    answers: &mut [u64],
) -> u64
    ensures is_run { RunNumbers (model_of device) kind count (hash_of a b) cells.old (L.orders list)
        calls.entry.ops.now calls.entry.lines.now calls.entry.workers.now calls.entry.keys.now answers.old
        result cells.new answers.new }
    ensures promise { Promised (model_of device) kind count (hash_of a b) cells.old (L.orders list)
        calls.entry.ops.now calls.entry.lines.now calls.entry.workers.now calls.entry.keys.now answers.old }
{
    let hash = Hash { a, b };
    let ran = batch::run_calls::<SINGLY, L>(device, kind, count, hash, cells, list, calls, answers);
    reply_answer(ran.reply)
}

// ---- reply rounds
// Opens a round with the list sent: 0, or the number of the refusal.
pub fn open_round<L: Lines>(
    device: Device,
    count: u64,
    a: u32,
    b: u32,
    cells: &mut [u64],
    list: L,
) -> u64
    ensures { OpenNumbers (model_of device) count (hash_of a b) cells.old (L.orders list)
        result cells.new }
{
    let opened = polling::open_round(device, count, Hash { a, b }, cells, list);
    reply_answer(opened)
}

// Closes a round with the replies: how many labels are left, or the number of the refusal. `answers` takes the number of each reply's answer, 0 if it is
// accepted, and `out` what is left.
pub fn close_round(
    device: Device,
    count: u64,
    a: u32,
    b: u32,
    cells: &mut [u64],
    keys: &[u32],
    workers: &[u32],
    answers: &mut [u32],
    out: &mut [u64],
) -> u64
    ensures { CloseNumbers (model_of device) count (hash_of a b) cells.old (acks_of keys.now workers.now)
        answers.old out.old result cells.new answers.new out.new }
{
    let closed = polling::close_round(
        device,
        count,
        Hash { a, b },
        cells,
        keys,
        workers,
        answers,
        out,
    );
    counted_answer(closed)
}

// ---- moves
// Opens a migration from a table to a new one and, if the opening is accepted, applies calls: 0, or the number of the opening's refusal.
pub fn run_moves(
    device: Device,
    count: u64,
    a: u32,
    b: u32,
    old: &[u64],
    cells: &mut [u64],
    ops: &[u32],
    workers: &[u32],
    answers: &mut [u64],
) -> u64
    ensures is_run { MoveNumbers (model_of device) count (hash_of a b) old.now cells.old
        ops.now workers.now answers.old result old.now cells.new answers.new }
    ensures promise { MovePromised (model_of device) count (hash_of a b) old.now cells.old
        ops.now workers.now answers.old }
{
    let ran = hauling::run_moves(
        device,
        count,
        Hash { a, b },
        old,
        cells,
        ops,
        workers,
        answers,
    );
    let reply = ran.reply;
    reply_answer(reply)
}
