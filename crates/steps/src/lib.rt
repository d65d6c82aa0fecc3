// The worker's rule as a function: one step of a worker, by its kind of phase.
#![tactic(auto, using(std::proofs::lemmas::Bool::Decides::nat_tests), unfolding(rule::specs::Rule::rule))]

ghost use Rattle.std.specs.Prelude.{◌≡◌};
ghost use Rattle.homes.specs.Homes.{spread};
ghost use Rattle.prices.specs.Contents.{label};
ghost use Rattle.activities.specs.Activities.{cells_of, Below};
ghost use Rattle.rule.specs.Rule.{rule};

use activities::Activity;
use homes::Hash;
use rule::Outcome;

pub fn step(kind: u32, hash: Hash, length: u32, activity: Activity, content: u64) -> Outcome
    requires { Below length (cells_of activity) }
    ensures { result ≡ rule kind length label (spread hash length) activity content }
{
    match kind {
        1 => probing::insert_step(length, activity, content),
        2 => deletion::delete_step(hash, length, activity, content),
        _ => probing::find_step(length, activity, content),
    }
}
