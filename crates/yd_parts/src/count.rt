//! Counts that can be written.

ghost use Rattle.std.specs.Prelude.{◌≡◌, ◌<◌, ◌≤◌, ◌^◌, IfOk, IsErr, OnOk};

use crate::fault::NoMemory;

/// The least count that is too large to be written.
const LIMIT: u64 = 1 << 53;

/// A count as it is written, in elements. One of 2^53 or more finds no memory (own).
pub fn counted(len: usize) -> Result<u64, NoMemory>
    ensures count { IfOk result (λ count. count ≡ len) }
    ensures in_range { OnOk result (len < 2 ^ 53) }
    ensures too_large { IsErr result → 2 ^ 53 ≤ len }
{
    let count = len as u64;
    if count >= LIMIT {
        return Err(NoMemory);
    }
    Ok(count)
}
