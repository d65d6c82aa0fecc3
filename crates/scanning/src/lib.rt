// Text read: bytes compared and looked for, and the numbers that fields write.
#![tactic(auto)]

ghost use Rattle.std.specs.Prelude.{◌≡◌, eqb};
ghost use Rattle.std.specs.List.{position};
ghost use Rattle.text.specs.Bytes.{same, byte_at};
ghost use Rattle.text.specs.Numbers.{scanned_at, run_at};

use text::{GREATEST, LONGEST, Run, Scanned};

// Whether both hold the same bytes.
pub fn same_bytes(a: &[u8], b: &[u8]) -> bool
    ensures { result ≡ same a.now b.now }
{
    a == b
}

// The place of the first such byte, if there is one.
fn first_at(s: &[u8], byte: u8) -> Option<usize>
    ensures { result ≡ position (λ b. eqb b byte) s.now }
{
    s.iter().position(|b| *b == byte)
}

// The place of the first such byte, or the length.
pub fn byte_at(s: &[u8], byte: u8) -> usize
    ensures { result ≡ byte_at byte s.now }
{
    first_at(s, byte).unwrap_or(s.len())
}

// The value of digits is kept below 2^60: ten times as much is less than 2^64, and the longest number does not reach it.
const ROOM: u64 = 1152921504606846976;

// The digits that begin at `from`, in one pass; the value is tested behind the last one.
pub fn digits_at(s: &[u8], from: usize) -> Run
    ensures { result ≡ run_at s.now from }
{
    let mut value: u64 = 0;
    let mut end = from;
    while end < s.len() && s[end].is_ascii_digit() {
        value = (10 * value + ((s[end] - b'0') as u64)) % ROOM;
        end += 1;
    }
    let count = end - from;
    if count == 0 || LONGEST < count || GREATEST < value || (1 < count && s[from] == b'0') {
        return Run { number: None, end };
    }
    Run {
        number: Some(value as u32),
        end,
    }
}

// The number of the field that begins at `from`.
#[tactic(auto, using(crate::proofs::Fields::field_rules))]
pub fn scan_number(s: &[u8], from: usize) -> Option<Scanned>
    ensures { result ≡ scanned_at s.now from }
{
    let Run { number, end } = digits_at(s, from);
    if end < s.len() && s[end] != b'\t' {
        return None;
    }
    Some(Scanned {
        number: number?,
        end,
    })
}
