// The ring of cells: the neighbours of a cell, and distances.
#![tactic(auto, using(std::proofs::lemmas::Bool::Decides::nat_tests), unfolding(ring::specs::Ring::wrap, ring::specs::Ring::prev, ring::specs::Ring::dist))]

ghost use Rattle.std.specs.Prelude.{◌≡◌, ◌<◌};
ghost use Rattle.ring.specs.Ring;

// The cell after `cell`.
pub fn next(length: u32, cell: u32) -> u32
    requires { cell < length }
    ensures { result ≡ Ring.next length cell }
{
    if cell + 1 < length { cell + 1 } else { 0 }
}

// The cell before `cell`.
pub fn prev(length: u32, cell: u32) -> u32
    requires { cell < length }
    ensures { result ≡ Ring.prev length cell }
{
    if cell == 0 { length - 1 } else { cell - 1 }
}

// How many steps on from cell `from` cell `to` stands.
pub fn dist(length: u32, from: u32, to: u32) -> u32
    requires { (from < length) × (to < length) }
    ensures { result ≡ Ring.dist length from to }
{
    if from <= to {
        to - from
    } else {
        length - (from - to)
    }
}
