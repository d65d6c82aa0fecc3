// The steps of an insert and of a find, and what all steps share: the touched cell, and the outcomes.
// No home is computed here: what a step does is the same for every home rule.
#![tactic(auto, using(std::proofs::lemmas::Bool::Decides::nat_tests), unfolding(rule::specs::Rule::settled, rule::specs::Rule::absorbed, rule::specs::Rule::insert_step, rule::specs::Rule::find_step))]

ghost use Rattle.std.specs.Prelude.{◌≡◌, ℕ, ◌<◌};
ghost use Rattle.ring.specs.Ring;
ghost use Rattle.prices.specs.Contents;
ghost use Rattle.prices.specs.Contents.{label};
ghost use Rattle.activities.specs.Activities.{cells_of, Below};
ghost use Rattle.rule.specs.Rule;
ghost use Rattle.rule.specs.Rule.{insert_step, find_step};

use activities::Activity;
use prices::PRICES;
use rule::{Answer, Outcome};

pub fn touched(activity: Activity) -> Option<u32>
    ensures { result ≡ Rule.touched activity }
{
    match activity {
        Activity::Idle => None,
        Activity::Reading { cell, .. }
        | Activity::Replacing { cell, .. }
        | Activity::WalkingBack { cell, .. } => Some(cell),
        Activity::SeekingForward { at, .. } | Activity::SeekingBack { at, .. } => Some(at),
    }
}

// ---- outcomes
pub fn goes(activity: Activity, content: u64) -> Outcome
    ensures { result ≡ Rule.goes activity content }
{
    Outcome {
        activity,
        content,
        answer: Answer::WentOn,
    }
}

pub fn ends(answer: Answer, content: u64) -> Outcome
    ensures { result ≡ Rule.ends answer content }
{
    Outcome {
        activity: Activity::Idle,
        content,
        answer,
    }
}

pub fn unmoved(activity: Activity, content: u64) -> Outcome
    ensures { result ≡ Rule.unmoved activity content }
{
    Outcome {
        activity,
        content,
        answer: Answer::Idle,
    }
}

// The worker goes on to read the cell after `cell`.
pub fn reads_on(length: u32, entry: u64, cell: u32, content: u64) -> Outcome
    requires { cell < length }
    ensures { result ≡ Rule.goes (Activity.Reading entry (Ring.next length cell)) content }
{
    goes(
        Activity::Reading {
            entry,
            cell: geometry::next(length, cell),
        },
        content,
    )
}

// ---- insert
// Whether `content` has the key of `entry` and costs no more.
fn settled(entry: u64, content: u64) -> bool
    ensures { result ≡ Rule.settled label entry content }
{
    content / PRICES == entry / PRICES && content <= entry
}

// Whether `seen`, replaced by `entry`, leaves nothing to carry: it has no key, or that of `entry` at a higher price.
fn absorbed(entry: u64, seen: u64) -> bool
    ensures { result ≡ Rule.absorbed label entry seen }
{
    seen / PRICES == 0 || seen / PRICES == entry / PRICES && entry < seen
}

fn insert_reading(length: u32, entry: u64, cell: u32, content: u64) -> Outcome
    requires { cell < length }
    ensures { (home : ℕ → ℕ) → result ≡ insert_step length label home (Activity.Reading entry cell) content }
{
    if entry / PRICES < content / PRICES {
        return reads_on(length, entry, cell, content);
    }
    if settled(entry, content) {
        return ends(Answer::Finished, content);
    }
    goes(
        Activity::Replacing {
            entry,
            cell,
            from: cell,
            content,
        },
        content,
    )
}

// `seen` is what the cell held when it was read; from which cell plays no part.
fn insert_replacing(length: u32, entry: u64, cell: u32, seen: u64, content: u64) -> Outcome
    requires { cell < length }
    ensures { (home : ℕ → ℕ) → result ≡ insert_step length label home (Activity.Replacing entry cell cell seen) content }
{
    if content != seen {
        return goes(Activity::Reading { entry, cell }, content);
    }
    if absorbed(entry, seen) {
        return ends(Answer::Finished, entry);
    }
    reads_on(length, seen, cell, entry)
}

pub fn insert_step(length: u32, activity: Activity, content: u64) -> Outcome
    requires { Below length (cells_of activity) }
    ensures { (home : ℕ → ℕ) → result ≡ insert_step length label home activity content }
{
    match activity {
        Activity::Reading { entry, cell } => insert_reading(length, entry, cell, content),
        Activity::Replacing {
            entry,
            cell,
            content: seen,
            ..
        } => insert_replacing(length, entry, cell, seen, content),
        _ => unmoved(activity, content),
    }
}

// ---- find
fn price_of(content: u64) -> u32
    ensures { result ≡ Contents.price content }
{
    (content % PRICES) as u32
}

pub fn find_step(length: u32, activity: Activity, content: u64) -> Outcome
    requires { Below length (cells_of activity) }
    ensures { (home : ℕ → ℕ) → result ≡ find_step length label home activity content }
{
    let Activity::Reading { entry, cell } = activity else {
        return unmoved(activity, content);
    };
    if entry / PRICES < content / PRICES {
        return reads_on(length, entry, cell, content);
    }
    if content / PRICES == entry / PRICES {
        return ends(Answer::Price(price_of(content)), content);
    }
    ends(Answer::No, content)
}
