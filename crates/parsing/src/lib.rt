// Reading a line of the shift sheet.
#![tactic(auto)]

ghost use Rattle.std.specs.Prelude.{◌≡◌, drop};
ghost use Rattle.text.specs.Fields.{fields_of};
ghost use Rattle.lines.specs.Grammar.{word_of, command_of, numbers_of, reading_of, most_numbers, kept_bytes};

use lines::{Command, Line, Numbers};
use text::Scanned;

// The constants are those of the definitions.
pub fn most_numbers() -> usize
    ensures { result ≡ most_numbers }
{
    Line::MOST_NUMBERS
}

pub fn kept_bytes() -> usize
    ensures { result ≡ kept_bytes }
{
    Line::KEPT
}

// All commands.
const COMMANDS: [Command; 8] = [
    Command::Cells,
    Command::Open,
    Command::Item,
    Command::Order,
    Command::Turn,
    Command::Run,
    Command::Close,
    Command::List,
];

// The word of a command.
fn word_of(command: Command) -> &'static [u8]
    ensures { result.now ≡ word_of command }
{
    match command {
        Command::Cells => b"cells",
        Command::Open => b"open",
        Command::Item => b"item",
        Command::Order => b"order",
        Command::Turn => b"turn",
        Command::Run => b"run",
        Command::Close => b"close",
        Command::List => b"list",
    }
}

// The command of a word, if it is one's. Called once for each line, as the next two are, and faster where they stand.
#[inline(always)]
#[tactic(auto, unfolding(lines::specs::Grammar::command_of))]
fn command_of(word: &[u8]) -> Option<Command>
    ensures { result ≡ command_of word.now }
{
    COMMANDS
        .iter()
        .copied()
        .find(|command| scanning::same_bytes(word, word_of(*command)))
}

// The numbers that the fields of `s` from `from` on write, if all are readable and they are not too many.
#[inline(always)]
fn numbers_of(s: &[u8], from: usize) -> Option<Numbers>
    ensures { result ≡ numbers_of (fields_of (drop from s.now)) }
{
    let mut values = [0; Line::MOST_NUMBERS];
    let mut at = from;
    for count in 0..Line::MOST_NUMBERS {
        let Scanned { number, end } = scanning::scan_number(s, at)?;
        values[count] = number;
        if s.len() <= end {
            return Some(Numbers {
                count: count + 1,
                values,
            });
        }
        at = end + 1;
    }
    None
}

// What the line says; its end of line is not part of it.
#[inline(always)]
pub fn read_line(line: &[u8]) -> Line
    ensures { result ≡ reading_of line.now }
{
    let end = scanning::byte_at(line, b'\t');
    let Some(command) = command_of(&line[..end]) else {
        return Line {
            command: None,
            numbers: None,
        };
    };
    if line.len() <= end {
        return Line {
            command: Some(command),
            numbers: Some(Numbers {
                count: 0,
                values: [0; Line::MOST_NUMBERS],
            }),
        };
    }
    Line {
        command: Some(command),
        numbers: numbers_of(line, end + 1),
    }
}
