// Which activities a worker may have, and which phase states are well formed.
#![tactic(auto, using(std::proofs::lemmas::Bool::Decides::nat_tests))]

ghost use Rattle.std.specs.Prelude.{◌≡◌, false, cond, [], ◌∷◌, eqb};
ghost use Rattle.prices.specs.Contents.{label};
ghost use Rattle.activities.specs.Activities.{is_idle, all_below, activity_ok};
ghost use Rattle.state.specs.Model.{model_of};
ghost use Rattle.protocol.specs.Bars.{all_idle};
ghost use Rattle.protocol.specs.IsWellFormed.{numbers_ok, is_well_formed};

use activities::{Activity, Worker};
use prices::PRICES;
use state::{Device, Phase};

// ---- activities
pub fn is_idle(activity: Activity) -> bool
    ensures { result ≡ is_idle activity }
{
    matches!(activity, Activity::Idle)
}

// Whether a worker works for a key, not 0, at any price, and all cells that it names are of the table.
fn cells_ok(length: u32, entry: u64, cells: &[u32]) -> bool
    ensures { result ≡ cond (eqb (label entry) 0) false (all_below length cells.now) }
{
    entry / PRICES != 0 && cells.iter().all(|cell| *cell < length)
}

// Whether a worker may have this activity.
pub fn activity_ok(kind: u32, length: u32, activity: Activity) -> bool
    ensures { result ≡ activity_ok kind length label activity }
{
    match activity {
        Activity::Idle => true,
        Activity::Reading { entry, cell } => cells_ok(length, entry, &[cell]),
        Activity::Replacing {
            entry,
            cell,
            from,
            ..
        } => kind != 3 && cells_ok(length, entry, &[cell, from]),
        Activity::WalkingBack { entry, cell } => kind == 2 && cells_ok(length, entry, &[cell]),
        Activity::SeekingForward { entry, cell, at } => {
            kind == 2 && cells_ok(length, entry, &[cell, at])
        }
        Activity::SeekingBack {
            at,
            entry,
            cell,
            from,
            ..
        } => kind == 2 && cells_ok(length, entry, &[cell, from, at]),
    }
}

// ---- phase states
// Whether the numbers of a phase are within the bounds of a model.
pub fn numbers_ok(device: Device, kind: u32, length: u32, crew: u32) -> bool
    ensures { result ≡ numbers_ok (model_of device) kind length crew }
{
    Phase::kind_ok(kind as u64)
        && Phase::size_ok(device, length as usize)
        && Phase::crew_ok(device, crew as usize)
}

// Whether a phase is not spoilt, in document 01's word, to a model. An idle worker is good in each place, and most are idle: that is asked first.
#[tactic(auto, unfolding(protocol::specs::IsWellFormed::is_well_formed))]
pub fn is_well_formed(device: Device, phase: &Phase) -> bool
    ensures { result ≡ is_well_formed (model_of device) phase.now }
{
    numbers_ok(device, phase.kind, phase.length, phase.crew)
        && phase.workers.iter().enumerate().all(|(i, worker)| {
            is_idle(worker.activity)
                || i < phase.crew as usize && activity_ok(phase.kind, phase.length, worker.activity)
        })
}

// Whether all workers are idle.
pub fn all_idle(workers: &[Worker]) -> bool
    ensures { result ≡ all_idle workers.now }
{
    workers.iter().all(|worker| is_idle(worker.activity))
}
