// The bytes of a line that comes in parts, gathered, and what the line says.
#![tactic(auto)]

ghost use Rattle.std.specs.Prelude.{◌≡◌, ◌++◌, ◌≤◌, length, take};
ghost use Rattle.lines.specs.Grammar.{reading_of, kept_bytes};
ghost use Rattle.gathering.specs.Gathers.{Gathers};

use lines::Line;

// Gathers bytes of a line behind those gathered before. What follows the bytes kept of a line does not change what it says.
#[tactic(auto, unfolding(lines::specs::Grammar::longest_line, lines::specs::Grammar::kept_bytes))]
pub fn gather(bytes: &[u8], line: &mut [u8], gathered: usize) -> usize
    requires { (gathered ≤ kept_bytes) × (kept_bytes ≤ length line.old) }
    ensures { Gathers (take gathered line.old ++ bytes.now) line.new result }
{
    let count = bytes.len().min(Line::KEPT - gathered);
    let end = gathered + count;
    line[gathered..end].copy_from_slice(&bytes[..count]);
    end
}

// What a line says that ends in these bytes: they are the line, unless bytes of it were gathered before.
pub fn read_end(bytes: &[u8], line: &mut [u8], gathered: usize) -> Line
    requires { (gathered ≤ kept_bytes) × (kept_bytes ≤ length line.old) }
    ensures { result ≡ reading_of (take gathered line.old ++ bytes.now) }
{
    if gathered == 0 {
        return parsing::read_line(bytes);
    }
    let n = gather(bytes, line, gathered);
    parsing::read_line(&line[..n])
}
