// The replay of a shift sheet, line by line: a line answered, and what is kept from line to line.
#![tactic(auto)]

ghost use Rattle.std.specs.Prelude.{◌≡◌, true, false, ◌+◌, ◌≤◌, ◌<◌, length, take};
ghost use Rattle.prices.specs.Contents.{label};
ghost use Rattle.activities.specs.Activities.{activity_ok};
ghost use Rattle.state.specs.Model.{gateway};
ghost use Rattle.state.specs.Open.{open_call};
ghost use Rattle.protocol.specs.Calls.{close_call, order_call};
ghost use Rattle.tables.specs.Calls.{list_call};
ghost use Rattle.fitting.specs.Fitting.{most_items, Kept};
ghost use Rattle.sheet.specs.Replay.{State, longest_answer, blank, cells_task, turn_task, run_task, list_told, commanded, performed};
ghost use Rattle.answering.specs.Store.{state_of, replay_of, told_of, replied_of, opened_of, count_after, Roomy, Does, Leaves, Finds, Adds, Ready, Answers};
ghost use Rattle.answering.specs.One.{OrderAnswers, TurnAnswers};
ghost use Rattle.dealing.specs.Reached.{Led};

use activities::Worker;
use dealing::{Dealt, Ended};
use fitting::Task;
use homes::Hash;
use lines::{Command, Line};
use orders::Order;
use printing::Told;
use protocol::{Given, Moved, Turned};
use state::{Device, Phase, Refusal, Replied};

// What is kept from line to line, beside the lent cells and items: the phase, how many of the cells are the table, and how many items
// there are.
#[derive(Clone, Copy)]
pub struct Replay {
    pub phase: Phase,
    pub length: usize,
    pub items: usize,
}

impl Replay {
    // The longest table of a sheet.
    pub const MOST_CELLS: usize = 4096;

    // No output line is longer.
    pub const LONGEST_ANSWER: usize = 90309;
}

// The replay after a task, with what it tells and how the operations ended in a run.
#[derive(Clone, Copy)]
pub struct Done {
    pub replay: Replay,
    pub told: Told,
    pub finishes: [Option<Ended>; Phase::ROOM],
}

// The replay after a line, the place behind what the line printed, and whether the replay ends there.
#[derive(Clone, Copy)]
pub struct Answered {
    pub replay: Replay,
    pub at: usize,
    pub ended: bool,
}

// What an order to one worker or a turn of it leaves: the worker, and the place behind what the line printed.
#[derive(Clone, Copy)]
pub struct Worked {
    pub worker: Worker,
    pub at: usize,
}

// A replay before its first line. An opening on one cell is refused.
pub fn start() -> Replay
    ensures { result ≡ replay_of blank }
{
    let one = [0u64; 1];
    let unlisted: &[Order] = &[];
    let refused = Phase::open(Device::Gateway, 3, 1, Hash { a: 1, b: 0 }, &one, unlisted);
    Replay {
        phase: refused.phase,
        length: 0,
        items: 0,
    }
}

// ---- the tasks
fn tell(replay: Replay, told: Told) -> Done
    ensures { result ≡ told_of replay.phase replay.length replay.items told }
{
    Done {
        replay,
        told,
        finishes: dealing::no_finishes(),
    }
}

fn set_cells(replay: Replay, length: u32, cells: &mut [u64]) -> Done
    requires { Roomy replay cells.old }
    ensures { Leaves replay (λ (s : State). cells_task s length) cells.old cells.new result }
{
    let n = length as usize;
    if n < Phase::FEWEST_CELLS || Replay::MOST_CELLS < n {
        return tell(replay, Told::Replied(Err(Refusal::Size)));
    }
    rest::clear(&mut cells[..n]);
    tell(
        Replay {
            length: n,
            ..replay
        },
        Told::Replied(Ok(())),
    )
}

// The list of orders lent is that of the items. A refused opening leaves the phase that was there.
// Apart, so that only a line that opens has room for what an opening keeps while it tests the list.
#[inline(never)]
fn open_phase(
    replay: Replay,
    kind: u32,
    crew: u32,
    hash: Hash,
    cells: &[u64],
    items: &[Order],
) -> Done
    requires { Roomy replay cells.now × Kept replay.items items.now }
    ensures { result ≡ opened_of replay.phase replay.length replay.items
        (open_call gateway kind crew hash (take replay.length cells.now) (take replay.items items.now)) }
{
    let replied = Phase::open(
        Device::Gateway,
        kind as u64,
        crew as u64,
        hash,
        &cells[..replay.length],
        &items[..replay.items],
    );
    let phase = match replied.reply {
        Ok(()) => replied.phase,
        Err(_) => replay.phase,
    };
    tell(Replay { phase, ..replay }, Told::Replied(replied.reply))
}

// Stores one item more behind the others.
fn add_item(replay: Replay, worker: u32, key: u32, price: u32, items: &mut [Order]) -> Done
    requires { Kept replay.items items.old × (replay.items < most_items) }
    ensures { Adds replay worker key price items.old items.new result }
{
    let count = replay.items;
    items[count] = Order { key, price, worker };
    tell(
        Replay {
            items: count + 1,
            ..replay
        },
        Told::Replied(Ok(())),
    )
}

// An insert phase reads the item at place `first`, the others worker `first` and a key.
fn give_order(replay: Replay, first: u32, key: u32, items: &[Order]) -> Done
    requires { Kept replay.items items.now }
    ensures { result ≡ replied_of replay.length replay.items
        (order_call gateway replay.phase (take replay.items items.now) first first key) }
{
    let found = items[..replay.items].get(first as usize).copied();
    let Replied { phase, reply } = calls::order_found(
        Device::Gateway,
        replay.phase,
        found,
        first as usize,
        key,
    );
    tell(Replay { phase, ..replay }, Told::Replied(reply))
}

fn take_turn(replay: Replay, worker: u32, cells: &mut [u64]) -> Done
    requires { Roomy replay cells.old }
    ensures { Leaves replay (λ (s : State). turn_task s worker) cells.old cells.new result }
{
    let Turned { phase, reply } = calls::turn(
        Device::Gateway,
        replay.phase,
        &mut cells[..replay.length],
        worker as usize,
    );
    tell(Replay { phase, ..replay }, Told::Turned(reply))
}

fn run_out(replay: Replay, cells: &mut [u64]) -> Done
    requires { Roomy replay cells.old × (Led gateway replay.phase (take replay.length cells.old) × (replay.phase.shut ≡ false)) }
    ensures { Leaves replay run_task cells.old cells.new result }
{
    let Dealt { phase, finishes } = dealing::run(replay.phase, &mut cells[..replay.length]);
    Done {
        replay: Replay { phase, ..replay },
        told: Told::Ran,
        finishes,
    }
}

// How many items are left after a close with this answer: none, if it shut an insert phase.
fn items_after(kind: u32, reply: Result<(), Refusal>, items: usize) -> usize
    ensures { result ≡ count_after kind reply items }
{
    match reply {
        Ok(()) if kind == 1 => 0,
        _ => items,
    }
}

fn close_phase(replay: Replay) -> Done
    ensures { result ≡ replied_of replay.length (count_after replay.phase.kind (close_call gateway replay.phase).reply replay.items)
        (close_call gateway replay.phase) }
{
    let Replied { phase, reply } = calls::close(Device::Gateway, replay.phase);
    let items = items_after(replay.phase.kind, reply, replay.items);
    tell(
        Replay {
            phase,
            items,
            ..replay
        },
        Told::Replied(reply),
    )
}

fn list_table(replay: Replay, cells: &[u64]) -> Done
    requires { Roomy replay cells.now }
    ensures { result ≡ told_of replay.phase replay.length replay.items
        (list_told (list_call gateway replay.phase.hash (take replay.length cells.now) (take replay.length cells.now))) }
{
    let counted = rest::count(Device::Gateway, replay.phase.hash, &cells[..replay.length]);
    match counted {
        Ok(count) => tell(replay, Told::Listed(count)),
        Err(why) => tell(replay, Told::Replied(Err(why))),
    }
}

// Carries a command out.
fn carry_out(
    replay: Replay,
    command: Command,
    values: [u32; Line::MOST_NUMBERS],
    cells: &mut [u64],
    items: &mut [Order],
) -> Done
    requires { Finds replay cells.old items.old (Task.Perform command values) }
    ensures { Does (commanded (state_of replay cells.old items.old) command values)
        cells.old cells.new items.new result }
{
    match command {
        Command::Cells => set_cells(replay, values[0], cells),
        Command::Open => {
            let hash = Hash {
                a: values[2],
                b: values[3],
            };
            open_phase(replay, values[0], values[1], hash, cells, items)
        }
        Command::Item => add_item(replay, values[0], values[1], values[2], items),
        Command::Order => give_order(replay, values[0], values[1], items),
        Command::Turn => take_turn(replay, values[0], cells),
        Command::Run => run_out(replay, cells),
        Command::Close => close_phase(replay),
        Command::List => list_table(replay, cells),
    }
}

fn perform(replay: Replay, task: Task, cells: &mut [u64], items: &mut [Order]) -> Done
    requires { Finds replay cells.old items.old task }
    ensures { Does (performed (state_of replay cells.old items.old) task) cells.old cells.new items.new result }
{
    match task {
        Task::Perform(command, values) => carry_out(replay, command, values, cells, items),
        Task::Refuse => tell(replay, Told::Replied(Err(Refusal::Shut))),
    }
}

// Answers the sheet's line `number`: moves the replay, the cells and the items on, and prints from `at` on.
pub fn answer(
    replay: Replay,
    number: u64,
    line: Line,
    cells: &mut [u64],
    items: &mut [Order],
    out: &mut [u8],
    at: usize,
) -> Answered
    requires { Ready replay cells.old items.old × (at + longest_answer ≤ length out.old) }
    ensures { Answers (state_of replay cells.old items.old) number line cells.old out.old at
        cells.new items.new out.new result }
{
    let from = writing::put_number(out, at, number);
    let Some(task) = dispatching::reading_in(
        replay.phase.kind,
        replay.items,
        replay.phase.shut,
        line,
    ) else {
        let end = writing::put_bytes(out, from, b"\tbad\n");
        return Answered {
            replay,
            at: end,
            ended: true,
        };
    };
    let Done {
        replay,
        told,
        finishes,
    } = perform(replay, task, cells, items);
    let behind = printing::put_told(
        out,
        from,
        told,
        replay.phase.crew as usize,
        finishes,
        &cells[..replay.length],
    );
    let end = writing::put_bytes(out, behind, b"\n");
    Answered {
        replay,
        at: end,
        ended: false,
    }
}

// ---- lines to one worker of an open phase, for a loop that keeps the phase in place: only the worker goes by value
// Answers the line `number`, an order of `key` with its price to this worker, and prints from `at` on.
pub fn answer_order(
    kind: u32,
    hash: Hash,
    size: u32,
    worker: Worker,
    key: u32,
    price: u32,
    number: u64,
    out: &mut [u8],
    at: usize,
) -> Worked
    requires { (0 < size) × (at + longest_answer ≤ length out.old) }
    ensures { OrderAnswers kind hash size worker key price number out.old at out.new result }
{
    let from = writing::put_number(out, at, number);
    let Given { worker, reply } = calls::one_order(kind, hash, size, worker, key, price);
    let behind = printing::put_reply(out, from, reply);
    let end = writing::put_bytes(out, behind, b"\n");
    Worked { worker, at: end }
}

// Answers the line `number`, a turn of this worker on the first `places` cells, and prints from `at` on.
pub fn answer_turn(
    kind: u32,
    hash: Hash,
    size: u32,
    worker: Worker,
    number: u64,
    cells: &mut [u64],
    places: usize,
    out: &mut [u8],
    at: usize,
) -> Worked
    requires { (activity_ok kind size label worker.activity ≡ true)
        × ((size ≡ places) × ((places ≤ length cells.old) × (at + longest_answer ≤ length out.old))) }
    ensures { TurnAnswers kind hash size worker number places cells.old out.old at cells.new out.new result }
{
    let from = writing::put_number(out, at, number);
    let Moved { worker, reply } = calls::one_turn(kind, hash, size, &mut cells[..places], worker);
    let behind = printing::put_turn(out, from, reply);
    let end = writing::put_bytes(out, behind, b"\n");
    Worked { worker, at: end }
}
