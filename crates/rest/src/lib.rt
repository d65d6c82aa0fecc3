// What is done to a table at rest: check, count and list, each by the hash function that the table is used with, and emptying it. No phase is needed.
#![tactic(auto)]

ghost use Rattle.std.specs.Prelude.{◌≡◌, length, replicate};
ghost use Rattle.state.specs.Model.{model_of};
ghost use Rattle.tables.specs.Calls.{check_call, count_call, list_call, list_after, list_front};

use homes::Hash;
use state::{Device, Phase, Refusal};

// Whether a table may have its length and its hash function, and is sound or, if it is not, why.
pub fn check(device: Device, hash: Hash, cells: &[u64]) -> Result<(), Refusal>
    ensures { result ≡ check_call (model_of device) hash cells.now }
{
    Phase::check(device, hash, cells)
}

// How many keys the table has.
pub fn count(device: Device, hash: Hash, cells: &[u64]) -> Result<usize, Refusal>
    ensures { result ≡ count_call (model_of device) hash cells.now }
{
    check(device, hash, cells)?;
    Ok(listing::count_keys(cells))
}

// Lists the entries, each key with its price, in cell order at the front of `out`.
pub fn list(device: Device, hash: Hash, cells: &[u64], out: &mut [u64]) -> Result<usize, Refusal>
    ensures { (result ≡ list_call (model_of device) hash cells.now out.old)
        × (out.new ≡ list_after (model_of device) hash cells.now out.old) }
{
    let count = count(device, hash, cells)?;
    if out.len() < count {
        return Err(Refusal::ShortList);
    }
    listing::list_entries(cells, out);
    Ok(count)
}

// The same, handing back the filled front part of `out`: it begins where `out` does.
pub fn list_front<'a>(
    device: Device,
    hash: Hash,
    cells: &[u64],
    out: &'a mut [u64],
) -> &'a mut [u64]
    ensures { (result.now ≡ list_front (model_of device) hash cells.now out.old) × (result.ref_ptr ≡ out.entry.ref_ptr) }
{
    let listed = list(device, hash, cells, out);
    match listed {
        Ok(count) => &mut out[..count],
        Err(_) => &mut out[..0],
    }
}

// Empties a table.
pub fn clear(cells: &mut [u64])
    ensures { cells.new ≡ replicate (length cells.old) 0 }
{
    cells.fill(0);
}
