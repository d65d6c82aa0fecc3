// What an output line says behind its number, written into a lent buffer.
#![tactic(auto)]

ghost use Rattle.std.specs.Prelude.{[], ◌∷◌, ◌++◌, ◌+◌, ◌*◌, ◌≤◌, length, take};
ghost use Rattle.text.specs.Digits.{digits_of};
ghost use Rattle.words.specs.Words.{entries_of};
ghost use Rattle.printing.specs.Widths.{word_width, reply_width, finishes_width, count_width, entry_width, told_width};
ghost use Rattle.printing.specs.Fields.{Printed, PrintedWithin, field, answer_word, refusal_fields, reply_fields, turn_fields, finish_word, finish_fields, entry_fields, told_fields};

use dealing::Ended;
use prices::PRICES;
use rule::Answer;
use state::{Phase, Refusal};

// What a line tells: the answer of a call; that workers ran; how many keys are listed.
#[derive(Clone, Copy)]
pub enum Told {
    Replied(Result<(), Refusal>),
    Turned(Result<Answer, Refusal>),
    Ran,
    Listed(usize),
}

fn put_refusal(out: &mut [u8], at: usize, why: Refusal) -> usize
    requires { at + reply_width ≤ length out.old }
    ensures { Printed (refusal_fields why) out.old at out.new result }
{
    let behind = writing::put_bytes(out, at, b"\trefused\t");
    writing::put_number(out, behind, why.number() as u64)
}

pub fn put_reply(out: &mut [u8], at: usize, reply: Result<(), Refusal>) -> usize
    requires { at + reply_width ≤ length out.old }
    ensures { Printed (reply_fields reply) out.old at out.new result }
{
    match reply {
        Ok(()) => writing::put_bytes(out, at, b"\tok"),
        Err(why) => put_refusal(out, at, why),
    }
}

fn put_answer(out: &mut [u8], at: usize, answer: Answer) -> usize
    requires { at + word_width ≤ length out.old }
    ensures { PrintedWithin word_width (field (answer_word answer)) out.old at out.new result }
{
    match answer {
        Answer::WentOn => writing::put_bytes(out, at, b"\ton"),
        Answer::Finished => writing::put_bytes(out, at, b"\tdone"),
        Answer::Price(price) => put_field(out, at, price as u64),
        Answer::No => writing::put_bytes(out, at, b"\tno"),
        Answer::Idle => writing::put_bytes(out, at, b"\tidle"),
    }
}

pub fn put_turn(out: &mut [u8], at: usize, reply: Result<Answer, Refusal>) -> usize
    requires { at + reply_width ≤ length out.old }
    ensures { PrintedWithin reply_width (turn_fields reply) out.old at out.new result }
{
    match reply {
        Ok(answer) => put_answer(out, at, answer),
        Err(why) => put_refusal(out, at, why),
    }
}

fn put_finish(out: &mut [u8], at: usize, finish: Option<Ended>) -> usize
    requires { at + word_width ≤ length out.old }
    ensures { PrintedWithin word_width (field (finish_word finish)) out.old at out.new result }
{
    match finish {
        None => writing::put_bytes(out, at, b"\t-"),
        Some(Ended::Finished) => put_answer(out, at, Answer::Finished),
        Some(Ended::Price(price)) => put_answer(out, at, Answer::Price(price)),
        Some(Ended::No) => put_answer(out, at, Answer::No),
    }
}

// The fields of the first `count` workers.
fn put_finishes(
    out: &mut [u8],
    at: usize,
    finishes: [Option<Ended>; Phase::ROOM],
    count: usize,
) -> usize
    requires { at + finishes_width ≤ length out.old }
    ensures { PrintedWithin finishes_width (finish_fields (take count finishes)) out.old at out.new result }
{
    let mut place = at;
    for finish in &finishes[..count.min(Phase::ROOM)] {
        place = put_finish(out, place, *finish);
    }
    place
}

fn put_field(out: &mut [u8], at: usize, number: u64) -> usize
    requires { at + length (field (digits_of number)) ≤ length out.old }
    ensures { Printed (field (digits_of number)) out.old at out.new result }
{
    let behind = writing::put_bytes(out, at, b"\t");
    writing::put_number(out, behind, number)
}

// The key and the price of a cell, if it holds a key.
fn put_entry(out: &mut [u8], at: usize, entry: u64) -> usize
    requires { at + entry_width ≤ length out.old }
    ensures { PrintedWithin entry_width (entry_fields (entries_of (entry ∷ []))) out.old at out.new result }
{
    if entry / PRICES == 0 {
        return at;
    }
    let behind = put_field(out, at, entry / PRICES);
    put_field(out, behind, entry % PRICES)
}

// The entries of a table in cell order.
fn put_entries(out: &mut [u8], at: usize, cells: &[u64]) -> usize
    requires { at + entry_width * length cells.now ≤ length out.old }
    ensures { PrintedWithin (entry_width * length cells.now) (entry_fields (entries_of cells.now)) out.old at out.new result }
{
    let mut place = at;
    for cell in cells {
        place = put_entry(out, place, *cell);
    }
    place
}

fn put_list(out: &mut [u8], at: usize, count: usize, cells: &[u64]) -> usize
    requires { at + count_width + entry_width * length cells.now ≤ length out.old }
    ensures { PrintedWithin (count_width + entry_width * length cells.now) (field (digits_of count) ++ entry_fields (entries_of cells.now))
        out.old at out.new result }
{
    let behind = put_field(out, at, count as u64);
    put_entries(out, behind, cells)
}

// What a line tells in a phase of `count` workers.
pub fn put_told(
    out: &mut [u8],
    at: usize,
    told: Told,
    count: usize,
    finishes: [Option<Ended>; Phase::ROOM],
    cells: &[u64],
) -> usize
    requires { at + told_width (length cells.now) ≤ length out.old }
    ensures { PrintedWithin (told_width (length cells.now)) (told_fields told count finishes cells.now) out.old at out.new result }
{
    match told {
        Told::Replied(reply) => put_reply(out, at, reply),
        Told::Turned(reply) => put_turn(out, at, reply),
        Told::Ran => put_finishes(out, at, finishes, count),
        Told::Listed(keys) => put_list(out, at, keys, cells),
    }
}
