// A batch of calls: the phase is opened and tested once, and one worker at a time moves. What the promises on histories say of code that runs.
#![tactic(auto)]

ghost use Rattle.state.specs.Model.{model_of};
ghost use Rattle.numbered.specs.Batch.{Ran, Promised};
ghost use Rattle.numbered.specs.Lists.{RunsFrom};
ghost use Rattle.singly.specs.Lent.{calls_of};

use formed::is_well_formed;
use homes::Hash;
use inplace::run_tested;
use lent::Lines;
use singly::{Calls, run_singly};
use state::{Device, Phase, Replied};

// Applies calls from any phase on, as many as there are answers for. If SINGLY, each goes by itself, as single calls do. If not, the phase is tested once
// and stays in place, unless it is ill-formed.
pub fn run_from<const SINGLY: bool, L: Lines>(
    device: Device,
    phase: Phase,
    cells: &mut [u64],
    list: L,
    calls: Calls,
    answers: &mut [u64],
) -> Phase
    ensures { RunsFrom (model_of device) (L.orders list) phase cells.old
        (calls_of calls.entry answers.old)
        answers.old result cells.new answers.new }
{
    if !SINGLY && is_well_formed(device, &phase) {
        run_tested(phase, cells, list, calls, answers)
    } else {
        run_singly(device, phase, cells, list, calls, answers)
    }
}

// Opens a phase with a list of orders and, if the opening is accepted, applies calls as above, each lent that list.
pub fn run_calls<const SINGLY: bool, L: Lines>(
    device: Device,
    kind: u64,
    count: u64,
    hash: Hash,
    cells: &mut [u64],
    list: L,
    calls: Calls,
    answers: &mut [u64],
) -> Replied
    ensures is_run { Ran (model_of device) kind count hash cells.old (L.orders list)
        calls.entry.ops.now calls.entry.lines.now calls.entry.workers.now calls.entry.keys.now answers.old
        result cells.new answers.new }
    ensures promise { Promised (model_of device) kind count hash cells.old (L.orders list)
        calls.entry.ops.now calls.entry.lines.now calls.entry.workers.now calls.entry.keys.now answers.old }
{
    let opened = Phase::open(device, kind, count, hash, cells, list);
    match opened.reply {
        Ok(()) => Replied {
            phase: run_from::<SINGLY, L>(device, opened.phase, cells, list, calls, answers),
            reply: Ok(()),
        },
        Err(why) => Replied {
            phase: opened.phase,
            reply: Err(why),
        },
    }
}
