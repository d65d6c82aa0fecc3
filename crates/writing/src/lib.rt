// Text written: bytes and numbers put into a lent buffer.
#![tactic(auto)]

ghost use Rattle.std.specs.Prelude.{◌≡◌, ◌+◌, leb, length};
ghost use Rattle.text.specs.Digits.{digits_of};
ghost use Rattle.text.specs.Put.{put_at, place_after};

// Whether `count` bytes from `at` on lie within `len`.
fn fits(len: usize, at: usize, count: usize) -> bool
    ensures { result ≡ leb (at + count) len }
{
    at <= len && count <= len - at
}

// Writes the bytes from `at` on if there is room, and answers the place behind; else changes nothing and answers `at`.
pub fn put_bytes(out: &mut [u8], at: usize, bytes: &[u8]) -> usize
    ensures { (result ≡ place_after out.old at bytes.now) × (out.new ≡ put_at out.old at bytes.now) }
{
    if !fits(out.len(), at, bytes.len()) {
        return at;
    }
    let end = at + bytes.len();
    out[at..end].copy_from_slice(bytes);
    end
}

// How many digits `n` has. Four are passed over at a time.
fn places(n: u64) -> usize
    ensures { result ≡ length (digits_of n) }
{
    let mut more = 0;
    let mut rest = n;
    while 10000 <= rest {
        rest /= 10000;
        more += 4;
    }
    more + match rest {
        0..=9 => 1,
        10..=99 => 2,
        100..=999 => 3,
        _ => 4,
    }
}

// Writes the digits of `n` from `at` on if there is room, and answers the place behind; else changes nothing and answers `at`. The last digit is
// written first, each in its place.
pub fn put_number(out: &mut [u8], at: usize, n: u64) -> usize
    ensures { (result ≡ place_after out.old at (digits_of n)) × (out.new ≡ put_at out.old at (digits_of n)) }
{
    let count = places(n);
    if !fits(out.len(), at, count) {
        return at;
    }
    let end = at + count;
    let mut rest = n;
    for place in (at..end).rev() {
        out[place] = b'0' + (rest % 10) as u8;
        rest /= 10;
    }
    end
}
