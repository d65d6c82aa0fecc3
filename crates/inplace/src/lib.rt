// Lists of calls on a phase that stays in place: it is tested before.
#![tactic(auto)]

ghost use Rattle.std.specs.Prelude.{◌≡◌, true};
ghost use Rattle.state.specs.Model.{model_of};
ghost use Rattle.protocol.specs.IsWellFormed.{is_well_formed};
ghost use Rattle.numbered.specs.Lists.{RunsFrom};
ghost use Rattle.singly.specs.Lent.{calls_of};

use calls::{close_in_place, order_in_place, turn_in_place};
use lent::Lines;
use singly::{Calls, reply_answer, turn_answer};
use state::{Device, Phase};

// Applies calls as run_singly does, from a phase on that is well formed to some model. That is not tested: the phase stays in place, and one worker a call
// goes by value. To every model to which the phase is well formed, these are that model's calls.
pub fn run_tested<L: Lines>(
    mut phase: Phase,
    cells: &mut [u64],
    list: L,
    calls: Calls,
    answers: &mut [u64],
) -> Phase
    requires { (d : Device) × (is_well_formed (model_of d) phase ≡ true) }
    ensures { (d : Device) → is_well_formed (model_of d) phase ≡ true
        → RunsFrom (model_of d) (L.orders list) phase cells.old
        (calls_of calls.entry answers.old)
        answers.old result cells.new answers.new }
{
    for i in 0..calls.count(answers) {
        let op = calls.ops[i];
        let worker = calls.workers[i] as usize;
        answers[i] = if op == 1 {
            let found = list.line(calls.lines[i] as usize);
            reply_answer(order_in_place(&mut phase, found, worker, calls.keys[i]))
        } else if op == 2 {
            turn_answer(turn_in_place(&mut phase, cells, worker))
        } else {
            reply_answer(close_in_place(&mut phase))
        };
    }
    phase
}
