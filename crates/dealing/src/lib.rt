// The line `run`: turns dealt to the workers one lap after the other, until all are idle.
#![tactic(auto)]

ghost use Rattle.std.specs.Prelude.{◌≡◌, true, false, length, replicate, Option, Some, MatchOption};
ghost use Rattle.prices.specs.Contents.{label};
ghost use Rattle.activities.specs.Activities.{activity_ok};
ghost use Rattle.state.specs.Model.{gateway};
ghost use Rattle.protocol.specs.Split.{one_turn, one_cells};
ghost use Rattle.dealing.specs.Reached.{Led};
ghost use Rattle.dealing.specs.Deal;
ghost use Rattle.dealing.specs.Deal.{Dealing, unfinished, finish_after};
ghost use Rattle.dealing.specs.declared.Ended.{Ended};
ghost use Rattle.dealing.specs.Promise.{Runs};

use activities::Worker;
use calls::{one_find, one_turn};
use formed::{all_idle, is_idle};
use homes::Hash;
use protocol::Moved;
use rule::Answer;
use state::{Phase, Refusal};

// How an operation ended.
#[derive(Clone, Copy)]
pub enum Ended {
    Finished,
    // A look-up, with the price that it found.
    Price(u32),
    No,
}

// A phase with how the operations of its workers ended, of those whose have.
#[derive(Clone, Copy)]
pub struct Dealt {
    pub phase: Phase,
    pub finishes: [Option<Ended>; Phase::ROOM],
}

pub fn no_finishes() -> [Option<Ended>; Phase::ROOM]
    ensures { result ≡ replicate gateway.room unfinished }
{
    [None; Phase::ROOM]
}

// How a turn with this reply ended the worker's operation, if it did: else it leaves the worker's finish as it was.
fn ended_by(reply: Result<Answer, Refusal>) -> Option<Ended>
    ensures { MatchOption result ((f : Option Ended) → finish_after f reply ≡ f) (λ e. (f : Option Ended) → finish_after f reply ≡ Some e) }
{
    match reply {
        Ok(Answer::Finished) => Some(Ended::Finished),
        Ok(Answer::Price(price)) => Some(Ended::Price(price)),
        Ok(Answer::No) => Some(Ended::No),
        _ => None,
    }
}

// The kind of a find phase.
const FIND: u32 = 3;

// The turn of a worker that its phase may have, on a table as long as its phase says. That of a find is shorter.
fn turn_of(kind: u32, hash: Hash, size: u32, cells: &mut [u64], worker: Worker) -> Moved
    requires { (activity_ok kind size label worker.activity ≡ true) × (size ≡ length cells.old) }
    ensures { (result ≡ one_turn gateway kind hash size cells.old worker)
        × (cells.new ≡ one_cells gateway kind hash size cells.old worker) }
{
    if kind == FIND {
        return one_find(size, cells, worker);
    }
    one_turn(kind, hash, size, cells, worker)
}

// Turns in an open phase until all workers are idle. The record is not tested: calls have led to it. A worker that is idle is passed over: its
// turn would change nothing. One function with both loops, so that the phase is not copied for each lap. The result is the definition's, and what is
// promised of every run holds of it: all are idle, and each worker's finish is right.
pub fn run(mut phase: Phase, cells: &mut [u64]) -> Dealt
    requires { Led gateway phase cells.old × (phase.shut ≡ false) }
    ensures is_run { ◌≡◌ {A = Dealing} (record { dealt = result; table = cells.new }) (Deal.run gateway phase cells.old) }
    ensures promise { Runs gateway phase cells.old (record { dealt = result; table = cells.new }) }
{
    let mut finishes = no_finishes();
    let count = phase.crew as usize;
    'laps: while !all_idle(&phase.workers) {
        for w in 0..count {
            let worker = phase.workers[w];
            if is_idle(worker.activity) {
                continue;
            }
            let moved = turn_of(phase.kind, phase.hash, phase.length, cells, worker);
            phase.workers[w] = moved.worker;
            if let Some(ended) = ended_by(moved.reply) {
                finishes[w] = Some(ended);
            }
        }
    }
    Dealt { phase, finishes }
}
