// A migration (document 02: move shift), in which workers carry the entries of an old table into a new one: its state here, its calls and lists of calls as
// definitions in specs/. Types alone, no functions.
#![tactic(auto)]

use activities::Activity;
use homes::Hash;
use rule::Answer;
use state::{Phase, Refusal};

// What a worker of a migration is doing.
#[derive(Clone, Copy)]
pub enum Task {
    // Idle, or inserting into the new table what it has read.
    Inserting { activity: Activity },
    // Ordered, and yet to read this cell of the old table.
    Fetching { cell: u32 },
}

#[derive(Clone, Copy)]
pub struct Carrier {
    pub task: Task,
}

// The state of a migration, in either model: `source` is the length of the old table, `length` that of the new one, and `next` the old cell that the next
// order takes. One hash function serves both tables.
#[derive(Clone, Copy)]
pub struct Migration {
    pub kind: u32,
    pub source: u32,
    pub length: u32,
    pub crew: u32,
    pub next: u32,
    pub shut: bool,
    pub hash: Hash,
    pub carriers: [Carrier; Phase::ROOM],
}

// A migration with the answer of the call that gave it.
#[derive(Clone, Copy)]
pub struct Migrated {
    pub migration: Migration,
    pub reply: Result<(), Refusal>,
}

// The same of a turn.
#[derive(Clone, Copy)]
pub struct Stepped {
    pub migration: Migration,
    pub reply: Result<Answer, Refusal>,
}

// The same of one worker alone.
#[derive(Clone, Copy)]
pub struct Carried {
    pub carrier: Carrier,
    pub reply: Result<Answer, Refusal>,
}
