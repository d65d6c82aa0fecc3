// The service call of document 01: a turn on a lent phase. It is the plain call and nothing more.
#![tactic(auto)]

ghost use Rattle.std.specs.Prelude.{◌≡◌};
ghost use Rattle.state.specs.Model.{model_of};
ghost use Rattle.protocol.specs.Calls.{turn_call, turn_table};

use calls::turn;
use rule::Answer;
use state::{Device, Phase, Refusal};

// The reply, the phase and the table are those of the plain turn.
pub fn serve(
    device: Device,
    phase: &mut Phase,
    cells: &mut [u64],
    worker: usize,
) -> Result<Answer, Refusal>
    ensures { (result ≡ (turn_call (model_of device) phase.old cells.old worker).reply)
        × ((phase.new ≡ (turn_call (model_of device) phase.old cells.old worker).phase)
        × (cells.new ≡ turn_table (model_of device) phase.old cells.old worker)) }
{
    let turned = turn(device, *phase, cells, worker);
    *phase = turned.phase;
    turned.reply
}
