//! A text cut behind so many units of UTF-16.

ghost use Rattle.std.specs.Prelude.{◌≡◌, Ok, Err, IfOk, IfErr, IsCharBoundary, take, drop};
ghost use Rattle.yd_cols.specs.Reading.{string_at};

use crate::fault::ColCause;

/// The string at the front of the text that has so many units, and the text behind it. It takes
/// time by the bytes of that string alone (lib0, StringDecoder; that no pair is parted is own).
pub fn string_of(text: &str, units: u64) -> Result<(&str, &str), ColCause>
    ensures cut { IfOk result (λ parts. string_at units text.now
        ≡ Ok (parts.0.now, parts.1.now)) }
    ensures refused { IfErr result (λ cause. string_at units text.now ≡ Err cause) }
{
    let len = len_of(text, units)?;
    let parts = text.split_at(len);
    Ok(parts)
}

/// How many bytes the characters at the front have that have so many units.
fn len_of(text: &str, units: u64) -> Result<usize, ColCause>
    ensures cut { IfOk result (λ len. string_at units text.now
        ≡ Ok (take len text.now, drop len text.now)) }
    ensures between { IfOk result (λ len. IsCharBoundary text.now len) }
    ensures refused { IfErr result (λ cause. string_at units text.now ≡ Err cause) }
{
    let mut left = units;
    let mut len = 0;
    for c in text.chars() {
        if left == 0 {
            return Ok(len);
        }
        let count = c.len_utf16() as u64;
        if count > left {
            return Err(ColCause::HalfPair);
        }
        left -= count;
        len += c.len_utf8();
    }
    if left > 0 {
        return Err(ColCause::ShortInput);
    }
    Ok(len)
}
