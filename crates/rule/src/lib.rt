// The worker's rule: the types of a step here, the rule and lists of steps as definitions in specs/, examples in proofs/.
#![tactic(auto)]

use activities::Activity;

// What a step answers.
#[derive(Clone, Copy)]
pub enum Answer {
    WentOn,
    Finished,
    // The price of the label looked up.
    Price(u32),
    No,
    Idle,
}

// What a step makes of the activity and of the content of the cell that it touches.
#[derive(Clone, Copy)]
pub struct Outcome {
    pub activity: Activity,
    pub content: u64,
    pub answer: Answer,
}
