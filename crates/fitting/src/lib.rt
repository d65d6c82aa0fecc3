// Fitting a line to the phase: the table of the commands and what a line asks for, as definitions in specs/ with their promise, and laws in proofs/. Here are
// only the types and constants that they need.
#![tactic(auto)]

use lines::{Command, Line};
use orders::Order;

// The sheet keeps at most so many items (the list of orders for a put-in shift).
pub const MOST_ITEMS: usize = 1024;

// What is done with a line: it is carried out, refused because the phase is shut, or bad. It must have the numbers that its command takes, unless it is
// `Barred`: refused whatever it has.
#[derive(Clone, Copy)]
pub enum Handling {
    Performed,
    Refused,
    Barred,
    Bad,
}

// A line to one worker: an order or a turn.
#[derive(Clone, Copy)]
pub enum Single {
    Order,
    Turn,
}

// A command's row: how many numbers it takes, what is done with it in a shut phase and in an open one, and which line to one worker it is, if it is one.
#[derive(Clone, Copy)]
pub struct Row {
    pub takes: usize,
    pub shut: Handling,
    pub opened: Handling,
    pub single: Option<Single>,
}

// What a line asks for: a command with its numbers, with zeros behind them; or `Refuse` where the phase is shut.
#[derive(Clone, Copy)]
pub enum Task {
    Perform(Command, [u32; Line::MOST_NUMBERS]),
    Refuse,
}

// A line to one worker of an open phase: an order, or a turn of the worker. An order that is named by a place in the list is that of the place; one without a
// price has 0.
#[derive(Clone, Copy)]
pub enum Aim {
    Order(Order),
    Turn(u32),
}
