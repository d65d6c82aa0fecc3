// The calls on a phase as definitions (specs/): what each does, when it is refused, and that a refusal changes nothing. Types alone, no functions.
#![tactic(auto)]

use activities::Worker;
use rule::Answer;
use state::{Phase, Refusal};

// A phase after a turn, and what the turn answers.
#[derive(Clone, Copy)]
pub struct Turned {
    pub phase: Phase,
    pub reply: Result<Answer, Refusal>,
}

// The same of one worker alone.
#[derive(Clone, Copy)]
pub struct Moved {
    pub worker: Worker,
    pub reply: Result<Answer, Refusal>,
}

// A worker after an order, and the answer.
#[derive(Clone, Copy)]
pub struct Given {
    pub worker: Worker,
    pub reply: Result<(), Refusal>,
}
