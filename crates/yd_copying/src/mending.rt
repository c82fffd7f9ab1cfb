//! Halves of pairs that are alone.

ghost use Rattle.std.specs.Prelude.{◌≡◌, ◌<◌, ◌+◌, ◌&&◌, length, slice_index, IfOk, nat_lt};
ghost use Rattle.yd_ops.specs.Pairs.{is_high as is_high_half, is_low as is_low_half};
ghost use Rattle.yd_copying.specs.Content.{alone, whole_units};
ghost use Rattle.yd_copying.specs.Mending.{is_pair_at};

use std::alloc::Global;
use yd_ops::NoMemory;

/// The replacement character, as one unit.
const REPLACEMENT: u16 = 0xFFFD;

/// The units once more, where each half that has no partner beside it becomes U+FFFD.
pub(crate) fn whole(alloc: Global, units: &[u16]) -> Result<Vec<u16>, NoMemory>
    ensures { IfOk result (λ whole. whole.items ≡ whole_units units.now) }
{
    let mut whole = Vec::new(alloc);
    let mut at = 0;
    while at < units.len() {
        if is_pair_at(units, at) {
            whole.push(units[at])?;
            whole.push(units[at + 1])?;
            at += 2;
        } else {
            whole.push(alone(units[at]))?;
            at += 1;
        }
    }
    Ok(whole)
}

/// The unit at a place is a first half, and the next one a second half.
fn is_pair_at(units: &[u16], at: usize) -> bool
    requires { at < length units.now }
    ensures { result ≡ is_pair_at units.now at }
{
    if at + 1 >= units.len() {
        return false;
    }
    is_high(units[at]) && is_low(units[at + 1])
}

/// A unit that stands alone.
fn alone(unit: u16) -> u16
    ensures { result ≡ alone unit }
{
    if is_high(unit) || is_low(unit) {
        return REPLACEMENT;
    }
    unit
}

/// The number is the first half of a pair.
fn is_high(unit: u16) -> bool
    ensures { result ≡ is_high_half unit }
{
    0xD800 <= unit && unit <= 0xDBFF
}

/// The number is the second half of a pair.
fn is_low(unit: u16) -> bool
    ensures { result ≡ is_low_half unit }
{
    0xDC00 <= unit && unit <= 0xDFFF
}
