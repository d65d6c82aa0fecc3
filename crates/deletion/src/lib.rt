// The steps of a delete.
#![tactic(auto, using(std::proofs::lemmas::Bool::Decides::nat_tests), unfolding(rule::specs::Rule::fits, rule::specs::Rule::narrow, rule::specs::Rule::delete_step))]

ghost use Rattle.std.specs.Prelude.{◌≡◌, ℕ, ◌<◌};
ghost use Rattle.homes.specs.Homes.{spread};
ghost use Rattle.prices.specs.Contents.{label};
ghost use Rattle.activities.specs.Activities.{cells_of, Below};
ghost use Rattle.rule.specs.Rule;
ghost use Rattle.rule.specs.Rule.{delete_step};

use activities::Activity;
use homes::Hash;
use prices::PRICES;
use probing::{ends, goes, reads_on, unmoved};
use rule::{Answer, Outcome};

// The home of the key of `entry`.
fn home(hash: Hash, length: u32, entry: u64) -> u32
    requires { 0 < length }
    ensures { result ≡ spread hash length (label entry) }
{
    homes::home(hash, length, (entry / PRICES) as u32)
}

// Whether `content`, in cell `at`, may replace the content of `cell`.
fn fits(hash: Hash, length: u32, content: u64, at: u32, cell: u32) -> bool
    requires { (at < length) × (cell < length) }
    ensures { result ≡ Rule.fits length label (spread hash length) content at cell }
{
    if content / PRICES == 0 {
        return true;
    }
    let start = home(hash, length, content);
    geometry::dist(length, start, cell) < geometry::dist(length, start, at)
}

// With the content of cell `from` taken: on at cell `at`, or, if no cell lies between, about to replace `cell`.
fn narrow(length: u32, entry: u64, cell: u32, from: u32, taken: u64, at: u32) -> Activity
    ensures { (home : ℕ → ℕ) → result ≡ Rule.narrow length label home entry cell from taken at }
{
    if at == cell {
        return Activity::Replacing {
            entry,
            cell,
            from,
            content: taken,
        };
    }
    Activity::SeekingBack {
        at,
        entry,
        cell,
        from,
        content: taken,
    }
}

fn delete_reading(length: u32, entry: u64, cell: u32, content: u64) -> Outcome
    requires { cell < length }
    ensures { (home : ℕ → ℕ) → result ≡ delete_step length label home (Activity.Reading entry cell) content }
{
    if entry / PRICES < content / PRICES {
        return reads_on(length, entry, cell, content);
    }
    goes(Activity::WalkingBack { entry, cell }, content)
}

fn delete_walking_back(hash: Hash, length: u32, entry: u64, cell: u32, content: u64) -> Outcome
    requires { cell < length }
    ensures { result ≡ delete_step length label (spread hash length) (Activity.WalkingBack entry cell) content }
{
    if content / PRICES == entry / PRICES {
        return goes(
            Activity::SeekingForward {
                entry: content,
                cell,
                at: geometry::next(length, cell),
            },
            content,
        );
    }
    if cell == home(hash, length, entry) {
        return ends(Answer::Finished, content);
    }
    goes(
        Activity::WalkingBack {
            entry,
            cell: geometry::prev(length, cell),
        },
        content,
    )
}

fn delete_seeking_forward(
    hash: Hash,
    length: u32,
    entry: u64,
    cell: u32,
    at: u32,
    content: u64,
) -> Outcome
    requires { (cell < length) × (at < length) }
    ensures { result ≡ delete_step length label (spread hash length) (Activity.SeekingForward entry cell at) content }
{
    if fits(hash, length, content, at, cell) {
        return goes(
            narrow(length, entry, cell, at, content, geometry::prev(length, at)),
            content,
        );
    }
    goes(
        Activity::SeekingForward {
            entry,
            cell,
            at: geometry::next(length, at),
        },
        content,
    )
}

fn delete_seeking_back(
    hash: Hash,
    length: u32,
    entry: u64,
    cell: u32,
    from: u32,
    taken: u64,
    at: u32,
    content: u64,
) -> Outcome
    requires { (cell < length) × (at < length) }
    ensures { result ≡ delete_step length label (spread hash length) (Activity.SeekingBack at entry cell from taken) content }
{
    if fits(hash, length, content, at, cell) {
        return goes(
            narrow(length, entry, cell, at, content, geometry::prev(length, at)),
            content,
        );
    }
    goes(
        narrow(length, entry, cell, from, taken, geometry::prev(length, at)),
        content,
    )
}

fn delete_replacing(
    length: u32,
    entry: u64,
    cell: u32,
    from: u32,
    taken: u64,
    content: u64,
) -> Outcome
    ensures { (home : ℕ → ℕ) → result ≡ delete_step length label home (Activity.Replacing entry cell from taken) content }
{
    if content != entry {
        return goes(Activity::WalkingBack { entry, cell }, content);
    }
    if taken / PRICES == 0 {
        return ends(Answer::Finished, 0);
    }
    goes(
        Activity::WalkingBack {
            entry: taken,
            cell: from,
        },
        taken,
    )
}

pub fn delete_step(hash: Hash, length: u32, activity: Activity, content: u64) -> Outcome
    requires { Below length (cells_of activity) }
    ensures { result ≡ delete_step length label (spread hash length) activity content }
{
    match activity {
        Activity::Idle => unmoved(activity, content),
        Activity::Reading { entry, cell } => delete_reading(length, entry, cell, content),
        Activity::WalkingBack { entry, cell } => delete_walking_back(
            hash, length, entry, cell, content,
        ),
        Activity::SeekingForward { entry, cell, at } => delete_seeking_forward(
            hash, length, entry, cell, at, content,
        ),
        Activity::SeekingBack {
            at,
            entry,
            cell,
            from,
            content: taken,
        } => delete_seeking_back(hash, length, entry, cell, from, taken, at, content),
        Activity::Replacing {
            entry,
            cell,
            from,
            content: taken,
        } => delete_replacing(length, entry, cell, from, taken, content),
    }
}
