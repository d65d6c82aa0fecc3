// The calls on a migration (document 02: move shift): opening, order, turn and close, by value. Each is told the model by whose limits it is tested.
#![tactic(auto, using(std::proofs::lemmas::Bool::Decides::nat_tests))]

ghost use Rattle.std.specs.Prelude.{◌≡◌, true, ◌<◌, length};
ghost use Rattle.prices.specs.Contents.{label};
ghost use Rattle.activities.specs.Activities.{activity_ok};
ghost use Rattle.state.specs.Model.{gateway, model_of};
ghost use Rattle.protocol.specs.Split.{one_turn, one_cells};
ghost use Rattle.state.specs.Refusals.{first_of};
ghost use Rattle.migration.specs.Tasks.{is_free, task_ok, fetched, inserted, one_carry, old_after, new_after};
ghost use Rattle.migration.specs.Calls.{all_free, numbers_ok, is_well_formed, all_empty, is_unfit, fresh, sizes_ok, open_reply, open_call, state_bars, order_reply, order_call, close_reply, close_call, turn_check, turn_call, turn_old, turn_new};

use activities::{Activity, Worker};
use calls::one_turn;
use formed::{activity_ok, is_idle};
use homes::Hash;
use listing::count_keys;
use migration::{Carried, Carrier, Migrated, Migration, Stepped, Task};
use prices::PRICES;
use rule::Answer;
use state::{Device, Phase, Refusal};

// ---- tasks
// Whether a worker has no order.
fn is_free(task: Task) -> bool
    ensures { result ≡ is_free task }
{
    match task {
        Task::Fetching { .. } => false,
        Task::Inserting { activity } => is_idle(activity),
    }
}

// Whether a worker may have this task: each cell is held against its own table.
fn task_ok(source: u32, length: u32, task: Task) -> bool
    ensures { result ≡ task_ok source length task }
{
    match task {
        Task::Fetching { cell } => cell < source,
        Task::Inserting { activity } => activity_ok(1, length, activity),
    }
}

// ---- the state of a migration
// Whether two tables may have these lengths.
fn sizes_ok(device: Device, source: usize, length: usize) -> bool
    ensures { result ≡ sizes_ok (model_of device) source length }
{
    Phase::size_ok(device, source) && Phase::size_ok(device, length)
}

// Whether the numbers of a migration are within the bounds of a model.
fn numbers_ok(device: Device, kind: u32, source: u32, length: u32, crew: u32, next: u32) -> bool
    ensures { result ≡ numbers_ok (model_of device) kind source length crew next }
{
    kind == 4
        && sizes_ok(device, source as usize, length as usize)
        && Phase::crew_ok(device, crew as usize)
        && next <= source
}

// Whether a migration is not spoilt, in document 01's word, to a model.
#[tactic(auto, unfolding(migration::specs::Calls::is_well_formed))]
fn is_well_formed(device: Device, migration: &Migration) -> bool
    ensures { result ≡ is_well_formed (model_of device) migration.now }
{
    numbers_ok(
        device,
        migration.kind,
        migration.source,
        migration.length,
        migration.crew,
        migration.next,
    ) && migration.carriers.iter().enumerate().all(|(i, carrier)| {
        if i < migration.crew as usize {
            task_ok(migration.source, migration.length, carrier.task)
        } else {
            is_free(carrier.task)
        }
    })
}

// Whether no worker has an order.
fn all_free(carriers: &[Carrier]) -> bool
    ensures { result ≡ all_free carriers.now }
{
    carriers.iter().all(|carrier| is_free(carrier.task))
}

// ---- opening
// Whether all cells of a table are empty.
fn all_empty(cells: &[u64]) -> bool
    ensures { result ≡ all_empty cells.now }
{
    cells.iter().all(|content| *content == 0)
}

// Whether the new table is not all empty, or has no more cells than the old one has keys.
fn is_unfit(old: &[u64], new: &[u64]) -> bool
    ensures { result ≡ is_unfit old.now new.now }
{
    !all_empty(new) || new.len() <= count_keys(old)
}

// A migration with no cell handed out and no order. It is the same in each model.
fn fresh(source: u32, length: u32, crew: u32, shut: bool, hash: Hash) -> Migration
    ensures { result ≡ fresh gateway source length crew shut hash }
{
    let carriers = [Carrier {
        task: Task::Inserting {
            activity: Activity::Idle,
        },
    }; Phase::ROOM];
    Migration {
        kind: 4,
        source,
        length,
        crew,
        next: 0,
        shut,
        hash,
        carriers,
    }
}

// Whether a migration may be opened or, if it may not, why.
fn open_reply(
    device: Device,
    crew: u64,
    hash: Hash,
    old: &[u64],
    new: &[u64],
) -> Result<(), Refusal>
    ensures { result ≡ open_reply (model_of device) crew hash old.now new.now }
{
    if !sizes_ok(device, old.len(), new.len()) {
        return Err(Refusal::Size);
    }
    if !Phase::crew_ok(device, crew as usize) {
        return Err(Refusal::Crew);
    }
    Phase::check(device, hash, old)?;
    if is_unfit(old, new) {
        return Err(Refusal::Unfit);
    }
    Ok(())
}

// Opens a migration with a crew of so many workers and a hash function, from an old table to a new one.
pub fn open(device: Device, crew: u64, hash: Hash, old: &[u64], new: &[u64]) -> Migrated
    ensures { result ≡ open_call (model_of device) crew hash old.now new.now }
{
    match open_reply(device, crew, hash, old, new) {
        Ok(()) => Migrated {
            migration: fresh(old.len() as u32, new.len() as u32, crew as u32, false, hash),
            reply: Ok(()),
        },
        Err(why) => Migrated {
            migration: fresh(2, 2, 1, true, Hash { a: 1, b: 0 }),
            reply: Err(why),
        },
    }
}

// ---- the other calls
// What each of them asks of the migration: that it is not spoilt, and not shut.
fn check_state(device: Device, migration: &Migration) -> Result<(), Refusal>
    ensures { result ≡ first_of (state_bars (model_of device) migration.now) }
{
    if !is_well_formed(device, migration) {
        return Err(Refusal::Spoilt);
    }
    if migration.shut {
        return Err(Refusal::Shut);
    }
    Ok(())
}

// ---- order
// Whether a worker may be given an order or, if it may not, why.
fn order_reply(device: Device, migration: &Migration, worker: usize) -> Result<(), Refusal>
    ensures { result ≡ order_reply (model_of device) migration.now worker }
{
    check_state(device, migration)?;
    if migration.crew as usize <= worker {
        return Err(Refusal::NoWorker);
    }
    if !is_free(migration.carriers[worker].task) {
        return Err(Refusal::Busy);
    }
    if migration.source <= migration.next {
        return Err(Refusal::Full);
    }
    Ok(())
}

// A worker takes the next old cell.
pub fn order(device: Device, mut migration: Migration, worker: usize) -> Migrated
    ensures { result ≡ order_call (model_of device) migration worker }
{
    match order_reply(device, &migration, worker) {
        Ok(()) => {
            let cell = migration.next;
            migration.carriers[worker] = Carrier {
                task: Task::Fetching { cell },
            };
            migration.next = cell + 1;
            Migrated {
                migration,
                reply: Ok(()),
            }
        }
        Err(why) => Migrated {
            migration,
            reply: Err(why),
        },
    }
}

// ---- turn
// The turn that reads an old cell with this content: without a key it is finished, any other is carried from its key's home in the new table.
#[tactic(auto, using(std::proofs::lemmas::Bool::Decides::nat_tests), unfolding(migration::specs::Tasks::fetched))]
fn fetch(hash: Hash, length: u32, content: u64) -> Carried
    requires { 0 < length }
    ensures { result ≡ fetched gateway hash length content }
{
    if content / PRICES == 0 {
        return Carried {
            carrier: Carrier {
                task: Task::Inserting {
                    activity: Activity::Idle,
                },
            },
            reply: Ok(Answer::Finished),
        };
    }
    let cell = homes::home(hash, length, (content / PRICES) as u32);
    Carried {
        carrier: Carrier {
            task: Task::Inserting {
                activity: Activity::Reading {
                    entry: content,
                    cell,
                },
            },
        },
        reply: Ok(Answer::WentOn),
    }
}

// The turn of a worker at the new table: that of an insert phase.
fn insert(hash: Hash, size: u32, new: &mut [u64], activity: Activity) -> Carried
    requires { (activity_ok 1 size label activity ≡ true) × (size ≡ length new.old) }
    ensures { (result ≡ inserted gateway hash size (one_turn gateway 1 hash size new.old (record { activity = activity })))
        × (new.new ≡ one_cells gateway 1 hash size new.old (record { activity = activity })) }
{
    let moved = one_turn(1, hash, size, new, Worker { activity });
    Carried {
        carrier: Carrier {
            task: Task::Inserting {
                activity: moved.worker.activity,
            },
        },
        reply: moved.reply,
    }
}

// The turn of one worker that may have its task, on tables as long as its migration says. Neither is tested.
#[tactic(auto, using(crate::proofs::Walking::carry_rules))]
fn one_carry(hash: Hash, size: u32, old: &[u64], new: &mut [u64], task: Task) -> Carried
    requires { (task_ok (length old.now) size task ≡ true) × (size ≡ length new.old) × (0 < size) }
    ensures { (result ≡ one_carry gateway hash size old.now new.old task)
        × (old.now ≡ old_after gateway hash size old.now new.old task)
        × (new.new ≡ new_after gateway hash size old.now new.old task) }
{
    match task {
        Task::Fetching { cell } => fetch(hash, size, old[cell as usize]),
        Task::Inserting { activity } => insert(hash, size, new, activity),
    }
}

// Whether a worker may take a turn on these tables or, if it may not, why.
fn turn_check(
    device: Device,
    migration: &Migration,
    old: &[u64],
    new: &[u64],
    worker: usize,
) -> Result<(), Refusal>
    ensures { result ≡ turn_check (model_of device) migration.now old.now new.now worker }
{
    check_state(device, migration)?;
    if migration.source as usize != old.len() || migration.length as usize != new.len() {
        return Err(Refusal::OtherTable);
    }
    if migration.crew as usize <= worker {
        return Err(Refusal::NoWorker);
    }
    Ok(())
}

// A turn of one worker, which touches one cell of one of the two tables.
pub fn turn(
    device: Device,
    mut migration: Migration,
    old: &[u64],
    new: &mut [u64],
    worker: usize,
) -> Stepped
    ensures { (result ≡ turn_call (model_of device) migration old.now new.old worker)
        × (old.now ≡ turn_old (model_of device) migration old.now new.old worker)
        × (new.new ≡ turn_new (model_of device) migration old.now new.old worker) }
{
    match turn_check(device, &migration, old, new, worker) {
        Ok(()) => {
            let task = migration.carriers[worker].task;
            let carried = one_carry(migration.hash, migration.length, old, new, task);
            migration.carriers[worker] = carried.carrier;
            Stepped {
                migration,
                reply: carried.reply,
            }
        }
        Err(why) => Stepped {
            migration,
            reply: Err(why),
        },
    }
}

// ---- close
// Whether a migration may be closed or, if it may not, why: an order is unfinished, or an old cell remains.
fn close_reply(device: Device, migration: &Migration) -> Result<(), Refusal>
    ensures { result ≡ close_reply (model_of device) migration.now }
{
    check_state(device, migration)?;
    if !all_free(&migration.carriers) || migration.next < migration.source {
        return Err(Refusal::Working);
    }
    Ok(())
}

pub fn close(device: Device, mut migration: Migration) -> Migrated
    ensures { result ≡ close_call (model_of device) migration }
{
    match close_reply(device, &migration) {
        Ok(()) => {
            migration.shut = true;
            Migrated {
                migration,
                reply: Ok(()),
            }
        }
        Err(why) => Migrated {
            migration,
            reply: Err(why),
        },
    }
}
