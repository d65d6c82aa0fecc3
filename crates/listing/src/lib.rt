// The entries of a table in cell order, by occupancy words (document 01: taken words): a group is listed as soon as its word is made.
#![tactic(auto)]

ghost use Rattle.std.specs.Prelude.{◌≡◌, ◌≤◌, ◌<◌, length};
ghost use Rattle.std.specs.Int.Count.{ones};
ghost use Rattle.words.specs.Words.{taken, occupied, filled, groups, group, word_of, count_of};

use prices::PRICES;

// 1 if the cell holds a label, else 0. Without a branch, so that several cells are tested at once.
fn taken_bit(cell: u64) -> u64
    ensures { result ≡ taken cell }
{
    (cell / PRICES + (PRICES - 1)) / PRICES
}

// The occupancy word of a group of 64 cells: the bits of the even and of the odd cells are gathered side by side.
fn full_occupancy(group: &[u64]) -> u64
    requires { length group.now ≡ 64 }
    ensures { result ≡ word_of group.now }
{
    let mut even: u64 = 0;
    let mut odd: u64 = 0;
    for pair in (0..32).rev() {
        even = 4 * even + taken_bit(group[2 * pair]);
        odd = 4 * odd + taken_bit(group[2 * pair + 1]);
    }
    even + 2 * odd
}

// The occupancy word of a group: bit b is 1 if its cell b holds a label.
fn occupancy(group: &[u64]) -> u64
    requires { length group.now ≤ 64 }
    ensures { result ≡ word_of group.now }
{
    if group.len() == 64 {
        return full_occupancy(group);
    }
    let mut word: u64 = 0;
    for i in (0..group.len()).rev() {
        word = 2 * word + taken_bit(group[i]);
    }
    word
}

// How many cells of a group hold a label: the ones of its word.
fn ones_of(group: &[u64]) -> usize
    requires { length group.now ≤ 64 }
    ensures { result ≡ ones (word_of group.now) }
{
    u64::count_ones(occupancy(group)) as usize
}

// How many groups of 64 cells there are; the last may have fewer cells.
fn group_count(cells: &[u64]) -> usize
    ensures { result ≡ groups cells.now }
{
    (cells.len() + 63) / 64
}

// The cells of group `g`.
fn group_of(cells: &[u64], g: usize) -> &[u64]
    requires { g < groups cells.now }
    ensures { result.now ≡ group cells.now g }
{
    let from = 64 * g;
    if cells.len() - from < 64 {
        return &cells[from..];
    }
    let end = from + 64;
    &cells[from..end]
}

// How many cells hold a label: the sum of the ones of all words.
pub fn count_keys(cells: &[u64]) -> usize
    ensures { result ≡ count_of cells.now }
{
    let mut count: usize = 0;
    for g in 0..group_count(cells) {
        count += ones_of(group_of(cells, g));
    }
    count
}

// Writes the entries of a group at the front of `out`: one for each one of its word, from the lowest up.
fn write_entries(group: &[u64], word: u64, out: &mut [u64])
    requires { (word ≡ word_of group.now) × (length group.now ≤ 64) × (occupied group.now ≤ length out.old) }
    ensures { out.new ≡ filled group.now out.old }
{
    let mut ones = word;
    let mut at: usize = 0;
    while ones != 0 {
        let cell = u64::trailing_zeros(ones) as usize;
        out[at] = group[cell];
        at += 1;
        ones = ones & (ones - 1);
    }
}

// The step for one group, lent its cells and the list behind the earlier entries, with room for its own: writes these there in cell order, keeps
// every place behind them, and gives their number.
fn list_group(group: &[u64], out: &mut [u64]) -> usize
    requires { (length group.now ≤ 64) × (occupied group.now ≤ length out.old) }
    ensures { (result ≡ occupied group.now) × (out.new ≡ filled group.now out.old) }
{
    let word = occupancy(group);
    write_entries(group, word, out);
    u64::count_ones(word) as usize
}

// Lists all groups one after the other, each behind as many entries as there are ones in the earlier words.
pub fn list_entries(cells: &[u64], out: &mut [u64])
    requires { count_of cells.now ≤ length out.old }
    ensures { out.new ≡ filled cells.now out.old }
{
    let mut place: usize = 0;
    for g in 0..group_count(cells) {
        place += list_group(group_of(cells, g), &mut out[place..]);
    }
}
