// Replays the shift sheet on standard input, a block of bytes at a time.
#![tactic(auto)]

ghost use Rattle.std.specs.Prelude.{◌≤◌, length, IfOk};
ghost use Rattle.sheet.specs.Replay.{longest_answer};
ghost use Rattle.blocks.specs.Kept.{kept_of, Fit};
ghost use Rattle.replay.specs.Read.{Passes, Brings};

use answering::Replay;
use blocks::Carried;
use lines::Line;
use orders::Order;
use std::io;
use std::io::{ErrorKind, Read};

// What stands where no item is kept.
const NONE: Order = Order {
    key: 0,
    price: 0,
    worker: 0,
};

// How many bytes are read at a time.
const BLOCK: usize = 65536;

// The room for what is printed at a time: the longest answer and more, so that the answers to many lines are written at once.
const OUTPUT: usize = 196608;

// Writes to standard output. Where that fails it says so on standard error, but for a reader that has gone.
fn flush(rt: &(impl Print + Eprint), out: &[u8]) -> io::Result<()> {
    let written = rt.write_all(out);
    if let Err(error) = &written {
        if error.kind() != ErrorKind::BrokenPipe {
            eprintln!(rt; "replay: cannot write standard output").is_ok();
        }
    }
    written
}

// Answers the lines that end in a block, and writes what they print. An error is one of writing.
fn block_done(
    rt: &(impl Print + Eprint),
    carried: &mut Carried,
    block: &[u8],
    line: &mut [u8],
    cells: &mut [u64],
    items: &mut [Order],
    out: &mut [u8],
) -> io::Result<()>
    requires { Fit carried.old line.old cells.old items.old (length block.now) × (longest_answer ≤ length out.old) }
    ensures { Passes (kept_of carried.old line.old cells.old items.old) block.now line.new cells.new items.new carried.new result }
{
    let mut from: usize = 0;
    while from < block.len() {
        let filled = blocks::fill(*carried, &block[from..], line, cells, items, out);
        *carried = filled.carried;
        from += filled.next;
        flush(rt, &out[..filled.at])?;
        if carried.ended {
            return Ok(());
        }
    }
    Ok(())
}

// Answers the lines that end in what a read brought, of which `got` is the answer, writes what they print, and answers how many bytes that is. Where the
// read failed it says so on standard error.
fn read_done(
    rt: &(impl Print + Eprint),
    carried: &mut Carried,
    got: io::Result<usize>,
    block: &[u8],
    line: &mut [u8],
    cells: &mut [u64],
    items: &mut [Order],
    out: &mut [u8],
) -> io::Result<usize>
    requires fit { Fit carried.old line.old cells.old items.old (length block.now) × (longest_answer ≤ length out.old) }
    requires within { IfOk got (λ n. n ≤ length block.now) }
    ensures { Brings (kept_of carried.old line.old cells.old items.old) got block.now line.new cells.new items.new carried.new result }
{
    if got.is_err() {
        eprintln!(rt; "replay: cannot read standard input").is_ok();
    }
    let count = got?;
    block_done(rt, carried, &block[..count], line, cells, items, out)?;
    Ok(count)
}

// Replays the sheet to its end, to a line that ends the replay, or until reading or writing fails.
fn replay(rt: &HostRuntime) -> io::Result<()> {
    let mut cells = [0u64; Replay::MOST_CELLS];
    let mut items = [NONE; fitting::MOST_ITEMS];
    let mut block = [0u8; BLOCK];
    let mut out = [0u8; OUTPUT];
    let mut line = [0u8; Line::KEPT];
    let mut carried = blocks::start();
    let mut left = u64::MAX;
    while (BLOCK as u64) < left {
        let got = rt.stdin().read(&mut block);
        let count = read_done(
            rt,
            &mut carried,
            got,
            &block,
            &mut line,
            &mut cells,
            &mut items,
            &mut out,
        )?;
        if carried.ended {
            return Ok(());
        }
        if count == 0 {
            let at = blocks::last_line(carried, &line, &mut cells, &mut items, &mut out);
            return flush(rt, &out[..at]);
        }
        left -= count as u64;
    }
    Ok(())
}

fn main(rt: HostRuntime) {
    replay(&rt).is_ok();
}
