// A line fitted to the phase: what is done with it, and to whom it is.
#![tactic(auto, using(std::proofs::lemmas::Bool::Decides::nat_tests))]

ghost use Rattle.std.specs.Prelude.{◌≡◌, take};
ghost use Rattle.fitting.specs.Fitting.{most_items, Kept, row_with, order_numbers, item_handling, row_of, taken_by, handling_in, handled, reading_in};
ghost use Rattle.fitting.specs.Fitting.{order_named, order_aim, turn_aim, aim_of};

use fitting::{Aim, Handling, Row, Single, Task};
use lines::{Command, Line, Numbers};
use orders::Order;

// The constant is that of the definition.
pub fn most_items() -> usize
    ensures { result ≡ most_items }
{
    fitting::MOST_ITEMS
}

// ---- what a line asks for
// The table of the commands, in a phase of this kind, with so many items kept.
fn row_of(kind: u32, items: usize, command: Command) -> Row
    ensures { result ≡ row_of kind items command }
{
    match command {
        Command::Cells => row_with(1, Handling::Performed, Handling::Bad, None),
        Command::Open => row_with(4, Handling::Performed, Handling::Bad, None),
        Command::Item => row_with(3, item_handling(items), Handling::Bad, None),
        Command::Order => row_with(
            order_numbers(kind),
            Handling::Barred,
            Handling::Performed,
            Some(Single::Order),
        ),
        Command::Turn => row_with(
            1,
            Handling::Performed,
            Handling::Performed,
            Some(Single::Turn),
        ),
        Command::Run => row_with(0, Handling::Refused, Handling::Performed, None),
        Command::Close => row_with(0, Handling::Performed, Handling::Performed, None),
        Command::List => row_with(0, Handling::Performed, Handling::Performed, None),
    }
}

// How many numbers an order has in a phase of this kind.
fn order_numbers(kind: u32) -> usize
    ensures { result ≡ order_numbers kind }
{
    if kind == 1 { 1 } else { 2 }
}

// What is done with an item in a shut phase, with so many kept.
fn item_handling(items: usize) -> Handling
    ensures { result ≡ item_handling items }
{
    if items < fitting::MOST_ITEMS {
        Handling::Performed
    } else {
        Handling::Bad
    }
}

fn row_with(takes: usize, shut: Handling, opened: Handling, single: Option<Single>) -> Row
    ensures { result ≡ row_with takes shut opened single }
{
    Row {
        takes,
        shut,
        opened,
        single,
    }
}

// The numbers, where they are readable and as many as are taken.
fn taken_by(row: Row, numbers: Option<Numbers>) -> Option<[u32; Line::MOST_NUMBERS]>
    ensures { result ≡ taken_by row numbers }
{
    let Numbers { count, values } = numbers?;
    (count == row.takes).then_some(values)
}

fn handling_in(shut: bool, row: Row) -> Handling
    ensures { result ≡ handling_in shut row }
{
    if shut { row.shut } else { row.opened }
}

fn handle(
    handling: Handling,
    numbers: Option<[u32; Line::MOST_NUMBERS]>,
    command: Command,
) -> Option<Task>
    ensures { result ≡ handled handling numbers command }
{
    match (handling, numbers) {
        (Handling::Performed, Some(values)) => Some(Task::Perform(command, values)),
        (Handling::Refused, Some(_)) | (Handling::Barred, _) => Some(Task::Refuse),
        _ => None,
    }
}

// What a line asks for in a phase of this kind, with so many items kept.
pub fn reading_in(kind: u32, items: usize, shut: bool, line: Line) -> Option<Task>
    ensures { result ≡ reading_in kind items shut line }
{
    let command = line.command?;
    let row = row_of(kind, items, command);
    handle(handling_in(shut, row), taken_by(row, line.numbers), command)
}

// ---- to whom a line is
// The order that an order line names by its first number and its second.
fn order_named(kind: u32, first: u32, second: u32, items: &[Order], count: usize) -> Option<Order>
    requires { Kept count items.now }
    ensures { result ≡ order_named kind first second (take count items.now) }
{
    if kind == 1 {
        return items[..count].get(first as usize).copied();
    }
    Some(Order {
        key: second,
        price: 0,
        worker: first,
    })
}

fn order_aim(found: Option<Order>, crew: u32) -> Option<Aim>
    ensures { result ≡ order_aim found crew }
{
    let order = found?;
    (order.worker < crew).then_some(Aim::Order(order))
}

fn turn_aim(worker: u32, crew: u32) -> Option<Aim>
    ensures { result ≡ turn_aim worker crew }
{
    (worker < crew).then_some(Aim::Turn(worker))
}

// `count` items are kept.
pub fn aim_of(
    kind: u32,
    shut: bool,
    line: Line,
    crew: u32,
    items: &[Order],
    count: usize,
) -> Option<Aim>
    requires { Kept count items.now }
    ensures { result ≡ aim_of kind shut line crew (take count items.now) }
{
    if shut {
        return None;
    }
    let row = row_of(kind, count, line.command?);
    let values = taken_by(row, line.numbers)?;
    match row.single? {
        Single::Order => order_aim(order_named(kind, values[0], values[1], items, count), crew),
        Single::Turn => turn_aim(values[0], crew),
    }
}
