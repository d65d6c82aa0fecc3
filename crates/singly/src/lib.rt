// Lists of calls, lent as numbers, each through the function of that call.
#![tactic(auto)]

ghost use Rattle.std.specs.Prelude.{◌≡◌};
ghost use Rattle.state.specs.Model.{model_of};
ghost use Rattle.numbered.specs.Numbers.{refusal_answer, step_answer, turn_answer, reply_answer};
ghost use Rattle.numbered.specs.Lists.{RunsFrom};
ghost use Rattle.singly.specs.Lent.{count_of, calls_of};

use calls::{close, order, turn};
use lent::Lines;
use rule::Answer;
use state::{Device, Phase, Refusal};

// ---- the numbers of answers
// Where the numbers of refusals begin, and behind them those of words. Below are values.
const REFUSALS: u64 = 4294967296;

const WORDS: u64 = 8589934592;

pub fn refusal_answer(why: Refusal) -> u64
    ensures { result ≡ refusal_answer why }
{
    REFUSALS + why.number() as u64
}

fn step_answer(answer: Answer) -> u64
    ensures { result ≡ step_answer answer }
{
    match answer {
        Answer::WentOn => WORDS + 1,
        Answer::Finished => WORDS + 2,
        Answer::Price(price) => price as u64,
        Answer::No => WORDS + 4,
        Answer::Idle => WORDS + 5,
    }
}

pub fn turn_answer(reply: Result<Answer, Refusal>) -> u64
    ensures { result ≡ turn_answer reply }
{
    match reply {
        Ok(answer) => step_answer(answer),
        Err(why) => refusal_answer(why),
    }
}

pub fn reply_answer(reply: Result<(), Refusal>) -> u64
    ensures { result ≡ reply_answer reply }
{
    match reply {
        Ok(()) => 0,
        Err(why) => refusal_answer(why),
    }
}

// ---- a list of calls
// Lent as four lists of numbers, and of as many calls as the shortest has. Operation 1 is an order, 2 a turn, any other a close.
#[derive(Clone, Copy)]
pub struct Calls<'a> {
    pub ops: &'a [u32],
    pub lines: &'a [u32],
    pub workers: &'a [u32],
    pub keys: &'a [u32],
}

impl<'a> Calls<'a> {
    // How many of them are run: as many as there are, and as there is room for answers.
    pub fn count(self, answers: &[u64]) -> usize
        ensures { result ≡ count_of self.entry answers.now }
    {
        self.ops
            .len()
            .min(self.lines.len())
            .min(self.workers.len())
            .min(self.keys.len())
            .min(answers.len())
    }
}

// Applies calls from a phase on, as many as there are answers for; `answers` takes their answers' numbers. The list of orders is lent to each order. Each
// call goes by itself: the phase by value, and tested at each.
pub fn run_singly<L: Lines>(
    device: Device,
    phase: Phase,
    cells: &mut [u64],
    list: L,
    calls: Calls,
    answers: &mut [u64],
) -> Phase
    ensures { RunsFrom (model_of device) (L.orders list) phase cells.old
        (calls_of calls.entry answers.old)
        answers.old result cells.new answers.new }
{
    let mut next = phase;
    for i in 0..calls.count(answers) {
        let op = calls.ops[i];
        let worker = calls.workers[i] as usize;
        if op == 1 {
            let line = calls.lines[i] as usize;
            let ordered = order(device, next, list, line, worker, calls.keys[i]);
            next = ordered.phase;
            answers[i] = reply_answer(ordered.reply);
        } else if op == 2 {
            let turned = turn(device, next, cells, worker);
            next = turned.phase;
            answers[i] = turn_answer(turned.reply);
        } else {
            let closed = close(device, next);
            next = closed.phase;
            answers[i] = reply_answer(closed.reply);
        }
    }
    next
}
