// Till lists split into their records: the record that begins at a place of a text.
#![tactic(auto)]

ghost use Rattle.std.specs.Prelude.{◌≡◌, ◌<◌, eqb, length, get_or, drop, Some, IfSome};
ghost use Rattle.std.specs.Bool.{OnTrue};
ghost use Rattle.rfc4180.specs.Reader.{is_text, is_inside, plain_of, inside_of, end_of};
ghost use Rattle.till.specs.Places.{record_at};
ghost use Rattle.splitting.specs.Fields.{end_from, field_from, field_at, line_by, Stops};

use scanning::digits_at;
use text::Run;
use till::{Bad, Record};

// TEXTDATA of RFC 4180.
#[tactic(auto, using(std::proofs::lemmas::Bool::Decides::nat_tests), unfolding(rfc4180::specs::Reader::is_text))]
fn is_text(b: u8) -> bool
    ensures { result ≡ is_text b }
{
    matches!(b, 32..=33 | 35..=43 | 45..=126)
}

// What may stand between quotes, other than a quote.
#[tactic(auto, using(std::proofs::lemmas::Bool::Decides::nat_tests), unfolding(rfc4180::specs::Reader::is_inside))]
fn is_inside(b: u8) -> bool
    ensures { result ≡ is_inside b }
{
    matches!(b, b',' | b'\r' | b'\n') || is_text(b)
}

// Whether this byte, which is not 0, stands at `at`.
fn stands(text: &[u8], at: usize, byte: u8) -> bool
    requires { 0 < byte }
    ensures there { result ≡ eqb (get_or text.now at 0) byte }
    ensures within { OnTrue result (at < length text.now) }
{
    at < text.len() && text[at] == byte
}

// The end of a field without quotes that goes on at `from`.
fn plain_end(text: &[u8], from: usize) -> usize
    ensures { Some result ≡ end_from from (plain_of (drop from text.now)) }
{
    let mut end = from;
    while end < text.len() && is_text(text[end]) {
        end += 1;
    }
    end
}

// The place behind the closing quote of a field that goes on at `from`. A doubled quote does not close it.
fn quoted_end(text: &[u8], from: usize) -> Option<usize>
    ensures { result ≡ end_from from (inside_of (drop from text.now)) }
{
    let mut end = from;
    while end < text.len() {
        let b = text[end];
        end += 1;
        if b == b'"' {
            if !stands(text, end, b'"') {
                return Some(end);
            }
            end += 1;
        } else if !is_inside(b) {
            return None;
        }
    }
    None
}

// The field without quotes that begins at `at`. It is a number if its digits are all of it.
#[tactic(auto, using(crate::proofs::Scans::field_rules))]
fn plain_at(text: &[u8], at: usize) -> Run
    ensures { Some result ≡ field_from at (plain_of (drop at text.now)) }
{
    let run = digits_at(text, at);
    let end = plain_end(text, run.end);
    let number = if run.end < end { None } else { run.number };
    Run { number, end }
}

// The field whose opening quote stands before `at`. It is a number if the closing quote stands behind its digits.
#[tactic(auto, using(crate::proofs::Scans::field_rules))]
fn quoted_at(text: &[u8], at: usize) -> Option<Run>
    ensures { result ≡ field_from at (inside_of (drop at text.now)) }
{
    let run = digits_at(text, at);
    let end = quoted_end(text, run.end)?;
    let number = if 1 < end - run.end { None } else { run.number };
    Some(Run { number, end })
}

// The field that begins at `at`.
fn field_at(text: &[u8], at: usize) -> Option<Run>
    ensures { result ≡ field_at text.now at }
{
    if stands(text, at, b'"') {
        quoted_at(text, at + 1)
    } else {
        Some(plain_at(text, at))
    }
}

// The end of a record: that of the text, or CRLF.
#[tactic(auto, using(crate::proofs::Ends::end_rules))]
fn end_at(text: &[u8], at: usize) -> Option<usize>
    ensures { result ≡ end_from at (end_of (drop at text.now)) }
{
    if text.len() <= at {
        return Some(at);
    }
    if stands(text, at, b'\r') && stands(text, at + 1, b'\n') {
        Some(at + 2)
    } else {
        None
    }
}

// The record whose fields write these numbers, with the next one at `next`.
fn line_of(key: Option<u32>, price: Option<u32>, next: usize) -> Result<Record, Bad>
    ensures { result ≡ line_by key price next }
{
    let key = key.ok_or(Bad::Wrong)?;
    let price = price.ok_or(Bad::Wrong)?;
    Ok(Record { key, price, next })
}

// Any record that begins at `at`: two fields with a comma between them, and its end.
fn any_at(text: &[u8], at: usize) -> Result<Record, Bad>
    ensures { result ≡ record_at text.now at }
{
    let first = field_at(text, at).ok_or(Bad::Broken)?;
    if !stands(text, first.end, b',') {
        return Err(Bad::Broken);
    }
    let second = field_at(text, first.end + 1).ok_or(Bad::Broken)?;
    let next = end_at(text, second.end).ok_or(Bad::Broken)?;
    line_of(first.number, second.number, next)
}

// The digits with which the field at `at` begins, and the quotes around them if it has some. They are the field if none goes on behind them.
// Called twice for each record, and faster where it stands.
#[inline(always)]
fn part_at(text: &[u8], at: usize) -> Option<Run>
    ensures { IfSome result (λ r. Stops text.now r.end → Some r ≡ field_at text.now at) }
{
    if !stands(text, at, b'"') {
        return Some(digits_at(text, at));
    }
    let run = digits_at(text, at + 1);
    if !stands(text, run.end, b'"') {
        return None;
    }
    Some(Run {
        number: run.number,
        end: run.end + 1,
    })
}

// The record that begins at `at`, if both of its fields are digits alone, in quotes or not.
fn usual_at(text: &[u8], at: usize) -> Option<Result<Record, Bad>>
    ensures { IfSome result (λ r. r ≡ record_at text.now at) }
{
    let first = part_at(text, at)?;
    if !stands(text, first.end, b',') {
        return None;
    }
    let second = part_at(text, first.end + 1)?;
    let next = end_at(text, second.end)?;
    Some(line_of(first.number, second.number, next))
}

// The record that begins at `at`. Most have digits alone in both fields; any other one is read again from its start.
pub fn record_at(text: &[u8], at: usize) -> Result<Record, Bad>
    ensures { result ≡ record_at text.now at }
{
    match usual_at(text, at) {
        Some(usual) => usual,
        None => any_at(text, at),
    }
}
