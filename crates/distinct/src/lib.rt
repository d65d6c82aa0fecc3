// Keys (labels) counted once each, and whether those of a table and of a list together are as many as the cells or more (document 02, point 2: refusal 9).
// Those met so far stand in a hash trie in an array, so that no choice of keys makes the count slow: two different keys part within 32 links.
#![tactic(auto)]

ghost use Rattle.std.specs.Prelude.{◌≡◌, ◌++◌, ◌<◌, ◌≤◌, leb, length};
ghost use Rattle.layout.specs.Layout.{size};
ghost use Rattle.prices.specs.Priced.{labels};
ghost use Rattle.prices.specs.Contents.{label};
ghost use Rattle.distinct.specs.Trie.{root_of, link_of, counted, marked, total, all_marked};

use prices::PRICES;

// The cell where the search for a key begins.
#[tactic(auto, unfolding(crate::specs::Trie::root_of))]
fn root_of(key: u32) -> u32
    ensures { (result ≡ root_of key) × (result < 16384) }
{
    let k = key as u64;
    (k * 2654435769 % 4294967296 / 262144) as u32
}

// The cell where the search for a key ends: with the link to its node, or with no link.
fn link_of(trie: &[u32; 40960], key: u32) -> usize
    ensures { (result ≡ link_of trie.now key) × (result < 40960) }
{
    let mut at = root_of(key);
    let mut bits = key;
    let mut link = trie[at as usize];
    while at < link {
        if 32768 <= link {
            return at as usize;
        }
        if trie[(24576 + link / 2) as usize] == key {
            return at as usize;
        }
        at = link + bits % 2;
        bits = bits / 2;
        link = trie[at as usize];
    }
    at as usize
}

// The key is counted and gets a node, unless it has one or the limit is reached.
#[tactic(auto, using(std::proofs::lemmas::Bool::Decides::nat_tests), unfolding(crate::specs::Trie::counted, crate::specs::Trie::marked))]
pub fn mark(trie: &mut [u32; 40960], count: usize, limit: usize, key: u32) -> usize
    requires { limit ≤ 8192 }
    ensures { (result ≡ counted trie.old count limit key) × (trie.new ≡ marked trie.old count limit key) }
{
    if limit <= count {
        return count;
    }
    if key == 0 {
        return count;
    }
    let at = link_of(trie, key);
    let held = trie[at];
    if held == 0 {
        trie[32768 + count] = key;
        trie[at] = (16384 + 2 * count) as u32;
        return count + 1;
    }
    count
}

// The labels of the cells are counted.
pub fn mark_cells(trie: &mut [u32; 40960], limit: usize, cells: &[u64]) -> usize
    requires { limit ≤ 8192 }
    ensures { (result ≡ total trie.old 0 limit (labels label cells.now))
        × (trie.new ≡ all_marked trie.old 0 limit (labels label cells.now)) }
{
    let mut count = 0;
    for cell in cells {
        count = mark(trie, count, limit, (*cell / PRICES) as u32);
    }
    count
}

// The keys are counted on from `start`.
fn mark_keys(trie: &mut [u32; 40960], start: usize, limit: usize, keys: &[u32]) -> usize
    requires { limit ≤ 8192 }
    ensures { result ≡ total trie.old start limit keys.now }
{
    let mut count = start;
    for key in keys {
        count = mark(trie, count, limit, *key);
    }
    count
}

// Whether the labels of the table and of the list together, each counted once, are as many as the cells or more.
pub fn crowded(cells: &[u64], keys: &[u32]) -> bool
    requires { length cells.now ≤ 8192 }
    ensures { result ≡ leb (length cells.now) (size (labels label cells.now ++ keys.now)) }
{
    let mut trie = [0u32; 40960];
    let limit = cells.len();
    let start = mark_cells(&mut trie, limit, cells);
    let count = mark_keys(&mut trie, start, limit, keys);
    limit <= count
}
