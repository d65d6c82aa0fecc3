// The home of a key: by the two numbers a and b of document 02, point 6. This is the one place where it is computed.
#![tactic(auto)]

ghost use Rattle.std.specs.Prelude.{◌≡◌, ◌<◌};
ghost use Rattle.homes.specs.Homes.{spread, is_even};

// The hash function of a table: a times a key plus b, modulo 2^32.
#[derive(Clone, Copy)]
pub struct Hash {
    pub a: u32,
    pub b: u32,
}

// The home of a key in a table of `length` cells.
pub fn home(hash: Hash, length: u32, key: u32) -> u32
    requires { 0 < length }
    ensures { result ≡ spread hash length key }
{
    ((hash.a as u64 * key as u64 + hash.b as u64) % 4294967296) as u32 % length
}

// Whether a is even, which is refused.
pub fn is_even(hash: Hash) -> bool
    ensures { result ≡ is_even hash }
{
    hash.a % 2 == 0
}
