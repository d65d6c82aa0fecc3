// A block of the shift sheet: its lines read where they lie and answered into a buffer. Nothing is read from or written to the system here.
#![tactic(auto)]

ghost use Rattle.std.specs.Prelude.{◌≡◌, ◌≤◌, ◌<◌, length, take};
ghost use Rattle.sheet.specs.Replay.{longest_answer};
ghost use Rattle.feed.specs.Feed.{last_output};
ghost use Rattle.blocks.specs.Kept.{kept_of, Begins, Fit, Fills};

use answering::Replay;
use fitting::Aim;
use orders::Order;

// What is kept from block to block, beside the lent cells, the items and the bytes of a line that is not whole yet: how many those are, how many lines
// there were, and whether the replay has ended.
#[derive(Clone, Copy)]
pub struct Carried {
    pub replay: Replay,
    pub number: u64,
    pub len: usize,
    pub ended: bool,
}

// How far a block is done, and how far the buffer is filled with what that part prints.
#[derive(Clone, Copy)]
pub struct Filled {
    pub carried: Carried,
    pub next: usize,
    pub at: usize,
}

// What is kept before the first byte.
pub fn start() -> Carried
    ensures { Begins result }
{
    Carried {
        replay: answering::start(),
        number: 0,
        len: 0,
        ended: false,
    }
}

// Answers lines of a block until it is done, the replay ends, or the buffer has no room for the longest answer. A line is read where it lies; only
// one that the block does not end is gathered. The phase stays in place: a line to one worker moves that worker alone.
pub fn fill(
    mut carried: Carried,
    block: &[u8],
    line: &mut [u8],
    cells: &mut [u64],
    items: &mut [Order],
    out: &mut [u8],
) -> Filled
    requires { Fit carried line.old cells.old items.old (length block.now) × ((0 < length block.now) × (longest_answer ≤ length out.old)) }
    ensures { Fills (kept_of carried line.old cells.old items.old) block.now
        line.new cells.new items.new out.new result }
{
    let mut at: usize = 0;
    let mut from: usize = 0;
    while from < block.len() {
        if out.len() - at < Replay::LONGEST_ANSWER {
            return Filled {
                carried,
                next: from,
                at,
            };
        }
        let end = from + scanning::byte_at(&block[from..], b'\n');
        if block.len() <= end {
            carried.len = gathering::gather(&block[from..], line, carried.len);
            return Filled {
                carried,
                next: end,
                at,
            };
        }
        carried.number += 1;
        let read = gathering::read_end(&block[from..end], line, carried.len);
        carried.len = 0;
        from = end + 1;
        let aim = dispatching::aim_of(
            carried.replay.phase.kind,
            carried.replay.phase.shut,
            read,
            carried.replay.phase.crew,
            items,
            carried.replay.items,
        );
        match aim {
            Some(Aim::Order(order)) => {
                let w = order.worker as usize;
                let worked = answering::answer_order(
                    carried.replay.phase.kind,
                    carried.replay.phase.hash,
                    carried.replay.phase.length,
                    carried.replay.phase.workers[w],
                    order.key,
                    order.price,
                    carried.number,
                    out,
                    at,
                );
                carried.replay.phase.workers[w] = worked.worker;
                at = worked.at;
            }
            Some(Aim::Turn(worker)) => {
                let w = worker as usize;
                let worked = answering::answer_turn(
                    carried.replay.phase.kind,
                    carried.replay.phase.hash,
                    carried.replay.phase.length,
                    carried.replay.phase.workers[w],
                    carried.number,
                    cells,
                    carried.replay.length,
                    out,
                    at,
                );
                carried.replay.phase.workers[w] = worked.worker;
                at = worked.at;
            }
            None => {
                let answered = answering::answer(
                    carried.replay,
                    carried.number,
                    read,
                    cells,
                    items,
                    out,
                    at,
                );
                carried.replay = answered.replay;
                at = answered.at;
                if answered.ended {
                    carried.ended = true;
                    return Filled {
                        carried,
                        next: from,
                        at,
                    };
                }
            }
        }
    }
    Filled {
        carried,
        next: from,
        at,
    }
}

// Answers a last line that no newline ends, if it has a byte. The result is how far the buffer is filled.
pub fn last_line(
    carried: Carried,
    line: &[u8],
    cells: &mut [u64],
    items: &mut [Order],
    out: &mut [u8],
) -> usize
    requires { Fit carried line.now cells.old items.old 1 × (longest_answer ≤ length out.old) }
    ensures { (take result out.new ≡ last_output (kept_of carried line.now cells.old items.old))
        × (result ≤ length out.new) }
{
    let len = carried.len;
    if len == 0 {
        return 0;
    }
    let replay = carried.replay;
    let read = parsing::read_line(&line[..len]);
    let answered = answering::answer(replay, carried.number + 1, read, cells, items, out, 0);
    answered.at
}
