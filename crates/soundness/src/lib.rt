// Why a table is unsound, in time linear in its cells.
// Each cell has a link: how many cells right before it are known to hold greater labels. A search back from a cell jumps over these.
#![tactic(auto)]

ghost use Rattle.std.specs.Prelude.{◌≡◌, false, ℕ, suc, ◌≤◌, ◌<◌, eqb, length, get_or};
ghost use Rattle.homes.specs.Homes.{spread};
ghost use Rattle.ring.specs.Each.{all, some};
ghost use Rattle.prices.specs.Contents.{label, cell_ok};
ghost use Rattle.prices.specs.Priced.{labels};
ghost use Rattle.flaws.specs.Flaws.{breaks};
ghost use Rattle.soundness.specs.Faulty.{is_faulty, first_faulty, first_met};
ghost use Rattle.soundness.specs.Flaw.{flaw_of};
ghost use Rattle.soundness.specs.Links.{Linked, Searched, Skipped};

use homes::Hash;
use prices::{HIGHEST, PRICES};

// What is wrong with a table: it has no empty cell, or a cell that is wrong by itself; or in the lowest-numbered cell whose label breaks the order, that label
// meets an empty cell first, or a label.
#[derive(Clone, Copy)]
pub enum Flaw {
    Cells,
    Gap,
    Disorder,
}

// Whether a cell holds 0, or a label with a price from 1 to 9,999,999.
fn cell_ok(content: u64) -> bool
    ensures { result ≡ cell_ok content }
{
    content == 0 || content / PRICES != 0 && 1 <= content % PRICES && content % PRICES <= HIGHEST
}

// The label in a cell.
fn key_at(cells: &[u64], c: u32) -> u32
    requires { c < length cells.now }
    ensures { result ≡ get_or (labels label cells.now) c 0 }
{
    (cells[c as usize] / PRICES) as u32
}

// How many cells right before cell `j` are seen to hold greater labels: at least `path`, or all up to one that does not.
fn greater_before(cells: &[u64], links: &[u16], j: u32, path: u32) -> u32
    requires { ((home : ℕ → ℕ) × Linked (length cells.now) home (labels label cells.now) j links.now)
        × (j < length cells.now) × (path < length cells.now) }
    ensures { Searched (length cells.now) (labels label cells.now) links.now j path result }
{
    let n = cells.len() as u32;
    let key = key_at(cells, j);
    let mut s: u32 = 0;
    while s < path {
        let c = geometry::dist(n, s + 1, j);
        if key_at(cells, c) <= key {
            return s;
        }
        s = s + 1 + links[c as usize] as u32;
    }
    s
}

// Whether the label of cell `j` breaks the order. If not, the cell's link is set and the search can go on. One at home has nothing to be searched.
fn breaks_order(hash: Hash, cells: &[u64], links: &mut [u16], j: u32) -> bool
    requires { Linked (length cells.now) (spread hash (length cells.now)) (labels label cells.now) j links.old × (j < length cells.now) }
    ensures { (result ≡ breaks (length cells.now) (spread hash (length cells.now)) (labels label cells.now) j)
        × (result ≡ false → Linked (length cells.now) (spread hash (length cells.now))
        (labels label cells.now) (suc j) links.new) }
{
    let n = cells.len() as u32;
    let key = key_at(cells, j);
    if key == 0 {
        return false;
    }
    let home = homes::home(hash, n, key);
    if home == j {
        links[j as usize] = 0;
        return false;
    }
    let path = geometry::dist(n, home, j);
    let s = greater_before(cells, &links[..], j, path);
    if s < path {
        return true;
    }
    links[j as usize] = s as u16;
    false
}

// Whether cell `j` is wrong by itself, or its label breaks the order.
fn is_faulty(hash: Hash, cells: &[u64], links: &mut [u16], j: u32) -> bool
    requires { Linked (length cells.now) (spread hash (length cells.now)) (labels label cells.now) j links.old × (j < length cells.now) }
    ensures { (result ≡ is_faulty (spread hash (length cells.now)) cells.now j)
        × (result ≡ false → Linked (length cells.now) (spread hash (length cells.now))
        (labels label cells.now) (suc j) links.new) }
{
    if !cell_ok(cells[j as usize]) {
        return true;
    }
    breaks_order(hash, cells, links, j)
}

// Comes past empty cells from cell `j` on, two at a time, to one that is not, to the last cell or to the length. Most cells of a sparse table are passed here.
fn past_empties(cells: &[u64], j: u32) -> u32
    requires { (j ≤ length cells.now) × (length cells.now ≤ 8192) }
    ensures { Skipped cells.now j result }
{
    let n = cells.len() as u32;
    let mut c = j;
    while c + 1 < n {
        if cells[c as usize] != 0 {
            return c;
        }
        if cells[c as usize + 1] != 0 {
            return c + 1;
        }
        c += 2;
    }
    c
}

// The lowest-numbered such cell, or the length if there is none: then the links of all cells are set.
fn search(hash: Hash, cells: &[u64], links: &mut [u16]) -> u32
    requires { Linked (length cells.now) (spread hash (length cells.now)) (labels label cells.now) 0 links.old }
    ensures { (result ≡ first_faulty (spread hash (length cells.now)) cells.now)
        × (result ≡ length cells.now → Linked (length cells.now) (spread hash (length cells.now))
        (labels label cells.now) result links.new) }
{
    let n = cells.len() as u32;
    let mut j: u32 = 0;
    while j < n {
        if cells[j as usize] == 0 {
            j = past_empties(cells, j + 1);
        } else {
            if is_faulty(hash, cells, links, j) {
                return j;
            }
            j += 1;
        }
    }
    j
}

// The same, with room for the links. Less is cleared for smaller tables.
fn first_faulty(hash: Hash, cells: &[u64]) -> u32
    requires { length cells.now ≤ 8192 }
    ensures { result ≡ first_faulty (spread hash (length cells.now)) cells.now }
{
    if cells.len() <= 64 {
        let mut few = [0u16; 64];
        return search(hash, cells, &mut few);
    }
    if cells.len() <= 1024 {
        let mut more = [0u16; 1024];
        return search(hash, cells, &mut more);
    }
    let mut links = [0u16; 8192];
    search(hash, cells, &mut links)
}

// What the label of cell `j` meets first: the first content from its home on that is not greater, in cell `j` at the latest.
fn first_met(hash: Hash, cells: &[u64], j: u32) -> u64
    requires { (length cells.now ≤ 8192) × (j < length cells.now) }
    ensures { result ≡ first_met (spread hash (length cells.now)) cells.now j }
{
    let n = cells.len() as u32;
    let key = key_at(cells, j);
    let mut c = homes::home(hash, n, key);
    while key < key_at(cells, c) {
        c = geometry::next(n, c);
    }
    cells[c as usize]
}

fn some_empty(cells: &[u64]) -> bool
    ensures { result ≡ some (λ j. eqb (get_or cells.now j 0) 0) (length cells.now) }
{
    cells.contains(&0)
}

fn all_ok(cells: &[u64]) -> bool
    ensures { result ≡ all (λ j. cell_ok (get_or cells.now j 0)) (length cells.now) }
{
    cells.iter().all(|content| cell_ok(*content))
}

// Why a table is unsound by its hash function, if it is. The search ends at a faulty cell: all cells are then tested by themselves before its label
// is asked.
pub fn flaw_of(hash: Hash, cells: &[u64]) -> Result<(), Flaw>
    requires { length cells.now ≤ 8192 }
    ensures { result ≡ flaw_of (spread hash (length cells.now)) cells.now }
{
    if !some_empty(cells) {
        return Err(Flaw::Cells);
    }
    let j = first_faulty(hash, cells);
    if j == cells.len() as u32 {
        return Ok(());
    }
    if !all_ok(cells) {
        return Err(Flaw::Cells);
    }
    if first_met(hash, cells, j) == 0 {
        return Err(Flaw::Gap);
    }
    Err(Flaw::Disorder)
}
