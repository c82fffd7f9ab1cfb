//! The halves of a pair: which units they are, and whether each has its partner.

ghost use Rattle.std.specs.Prelude.{◌↔◌, IsTrue};
ghost use Rattle.yd_units.specs.Half.{AreUnits, IsHigh, IsLow, IsCut, IsWhole};

/// The unit is the first half of a pair.
pub fn is_high(unit: u16) -> bool
    ensures { IsTrue result ↔ IsHigh unit }
{
    0xD800 <= unit && unit <= 0xDBFF
}

/// The unit is the second half of a pair.
pub fn is_low(unit: u16) -> bool
    ensures { IsTrue result ↔ IsLow unit }
{
    0xDC00 <= unit && unit <= 0xDFFF
}

/// A cut before this unit parts a pair.
pub fn parts_a_pair(units: &[u16], n: u64) -> bool
    ensures { IsTrue result ↔ IsCut units.now n }
{
    if n == 0 || n >= units.len() as u64 {
        return false;
    }
    let at = n as usize;
    is_high(units[at - 1]) && is_low(units[at])
}

/// Each half has its partner beside it.
pub fn are_whole(units: &[u16]) -> bool
    ensures whole { IsTrue result ↔ IsWhole units.now }
    ensures fits { AreUnits units.now }
{
    let mut behind = 0;
    for i in 0..units.len() {
        let unit = units[i];
        if is_high(behind) != is_low(unit) {
            return false;
        }
        behind = unit;
    }
    !is_high(behind)
}
