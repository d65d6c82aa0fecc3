// A price change with a reply round, as a sample to run: it is sent to forty labels, and those that do not reply are printed, a line each: the label, a tab and
// its price in cents.
#![tactic(auto)]

ghost use Rattle.std.specs.Prelude.{◌≡◌, ℕ, ◌+◌, ◌*◌, ◌%◌, ◌<◌, ◌≤◌, length, get_or};
ghost use Rattle.state.specs.Counts.{count_value};

use homes::Hash;
use parallel::Parallel;
use polling::{close_round, open_round};
use prices::PRICES;
use state::{Device, Refusal};
use std::io;

// The cells of the table, and the workers.
const CELLS: usize = 64;

const CREW: u64 = 4;

// How many labels the change is sent to, and the room for their replies: one each, and one more.
const SENT: usize = 40;

const REPLIES: usize = SENT + 1;

// The label at place `i` of the list sent: the factory numbers in steps of 100.
fn label(i: usize) -> u32
    requires { i < SENT }
    ensures { result ≡ 1000 + 100 * i }
{
    1000 + 100 * i as u32
}

// Makes the list sent: labels and prices, dealt to the workers by turns.
fn make_list(keys: &mut [u32], prices: &mut [u32], workers: &mut [u32])
    requires { (length keys.old ≡ 40) × (length prices.old ≡ 40) × (length workers.old ≡ 40) }
    ensures { (i : ℕ) → i < 40
        → (get_or keys.new i 0 ≡ 1000 + 100 * i) × (get_or prices.new i 0 ≡ 199 + i) × (get_or workers.new i 0 ≡ i % 4) }
{
    for i in 0..SENT {
        keys[i] = label(i);
        prices[i] = 199 + i as u32;
        workers[i] = (i % 4) as u32;
    }
}

// Whether the label at place `i` replies.
fn replies(i: usize) -> bool {
    !matches!(i, 7 | 19 | 30)
}

// Gathers the replies and answers how many they are: from the last label to the first, and the last replies twice.
fn gather_replies(keys: &mut [u32], workers: &mut [u32]) -> usize
    requires { (length keys.old ≡ 41) × (length workers.old ≡ 41) }
    ensures { (result ≤ length keys.new) × (result ≤ length workers.new) }
{
    let mut count: usize = 1;
    keys[0] = label(SENT - 1);
    workers[0] = 0;
    for i in (0..SENT).rev() {
        if replies(i) {
            keys[count] = label(i);
            workers[count] = (count % 4) as u32;
            count += 1;
        }
    }
    count
}

// a and b: this a spreads labels that are numbered in steps of 100.
fn hash() -> Hash {
    Hash {
        a: 2654435769,
        b: 0,
    }
}

// Sends the change: opens the round.
fn send(cells: &mut [u64]) -> Result<(), Refusal> {
    let mut keys = [0u32; SENT];
    let mut prices = [0u32; SENT];
    let mut workers = [0u32; SENT];
    make_list(&mut keys, &mut prices, &mut workers);
    let list = Parallel {
        keys: &keys,
        prices: &prices,
        workers: &workers,
    };
    open_round(Device::Gateway, CREW, hash(), cells, list)
}

// Hears the replies: closes the round, which lists the silent labels and counts them.
fn hear(cells: &mut [u64], silent: &mut [u64]) -> Result<usize, Refusal>
    ensures { count_value result ≤ length silent.new }
{
    let mut keys = [0u32; REPLIES];
    let mut workers = [0u32; REPLIES];
    let count = gather_replies(&mut keys, &mut workers);
    let mut answers = [0u32; REPLIES];
    close_round(
        Device::Gateway,
        CREW,
        hash(),
        cells,
        &keys[..count],
        &workers[..count],
        &mut answers,
        silent,
    )
}

// Prints the number of a refusal.
fn print_refused(rt: &impl Print, why: Refusal) -> io::Result<()> {
    println!(rt; "refused {}", why.number())
}

// Prints a label with its price.
fn print_entry(rt: &impl Print, entry: u64) -> io::Result<()> {
    println!(rt; "{}\t{}", entry / PRICES, entry % PRICES)
}

// Prints how many labels the change was sent to, how many of them replied and how many are silent.
fn print_counts(rt: &impl Print, silent: usize) -> io::Result<()>
    requires { silent ≤ SENT }
{
    println!(rt;
        "{} sent, {} replied, {} silent",
        SENT,
        SENT - silent,
        silent
    )
}

// Prints the labels listed, each with its price.
fn print_entries(rt: &impl Print, entries: &[u64]) -> io::Result<()> {
    for entry in entries {
        print_entry(rt, *entry)?;
    }
    Ok(())
}

fn main(rt: HostRuntime) -> io::Result<()> {
    let mut cells = [0u64; CELLS];
    if let Err(why) = send(&mut cells) {
        return print_refused(&rt, why);
    }
    let mut silent = [0u64; SENT];
    match hear(&mut cells, &mut silent) {
        Err(why) => print_refused(&rt, why),
        Ok(count) => {
            print_counts(&rt, count)?;
            print_entries(&rt, &silent[..count])
        }
    }
}
