//! Characters as units, and units as characters.

ghost use Rattle.std.specs.Prelude.{◌≡◌, ◌<◌, ◌≤◌, ◌∷◌, ◌++◌, length, take, drop, vec_len, IfOk, OnOk, OnErr, IsUtf8, encode_utf8};
ghost use Rattle.std.specs.Char.Escape.{encode_utf16};
ghost use Rattle.std.specs.Char.Utf16.{utf16_chars};
ghost use Rattle.yd_units.specs.Text.{units_of, text_of};

use crate::fault::NoMemory;
use crate::half::is_low;
use std::alloc::Global;

/// The units of a text.
#[tactic(auto, using(crate::proofs::TextLemmas::units_of_ascii))]
pub fn units_of(alloc: Global, text: &str) -> Result<Vec<u16>, NoMemory>
    ensures { IfOk result (λ units. units.items ≡ units_of text.now) }
{
    if text.is_ascii() {
        return units_of_bytes(alloc, text.as_bytes());
    }
    units_of_chars(alloc, text)
}

/// Bytes, each as a unit.
fn units_of_bytes(alloc: Global, bytes: &[u8]) -> Result<Vec<u16>, NoMemory>
    ensures { IfOk result (λ units. units.items ≡ bytes.now) }
{
    let mut units = Vec::with_capacity(alloc, bytes.len())?;
    for byte in bytes {
        units.push_reserved(u16::from(*byte));
    }
    Ok(units)
}

/// The units of each character.
fn units_of_chars(alloc: Global, text: &str) -> Result<Vec<u16>, NoMemory>
    ensures { IfOk result (λ units. units.items ≡ units_of text.now) }
{
    let mut units = Vec::with_capacity(alloc, text.len())?;
    for c in text.chars() {
        push_units(&mut units, c)?;
    }
    Ok(units)
}

/// Appends the one or two units of a character.
fn push_units(units: &mut Vec<u16>, c: char) -> Result<(), NoMemory>
    ensures { OnOk result (units.new.items ≡ units.old.items ++ encode_utf16 c) }
{
    let code = c as u32;
    if code < 0x1_0000 {
        units.push(code as u16)?;
        return Ok(());
    }
    let mut pair = [0; 2];
    let spelled = c.encode_utf16(&mut pair);
    units.extend_from_slice(spelled)?;
    Ok(())
}

/// Appends the text of the units. Where memory ends, a part of it may be there.
pub fn push_text(units: &[u16], out: &mut Vec<u8>) -> Result<(), NoMemory>
    ensures kept { take (vec_len out.old) out.new.items ≡ out.old.items }
    ensures written { OnOk result (out.new.items ≡ out.old.items ++ text_of units.now) }
    ensures is_text { IsUtf8 (text_of units.now) }
{
    let mut at = 0;
    while at < units.len() {
        let (c, next) = char_at(units, at);
        push_char(c.unwrap_or('\u{FFFD}'), out)?;
        at = next;
    }
    Ok(())
}

/// The character that begins at a unit, if it is no half without its partner, and where the next begins.
fn char_at(units: &[u16], at: usize) -> (Option<char>, usize)
    requires { at < length units.now }
    ensures bound { (at < result.1) × (result.1 ≤ length units.now) }
    ensures first { utf16_chars (drop at units.now) ≡ result.0 ∷ utf16_chars (drop result.1 units.now) }
{
    let unit = units[at] as u32;
    if unit < 0xD800 || 0xDFFF < unit {
        return (char::from_u32(unit), at + 1);
    }
    if 0xDC00 <= unit || units.len() - at < 2 || !is_low(units[at + 1]) {
        return (None, at + 1);
    }
    let low = units[at + 1] as u32;
    let code = 0x1_0000 + (unit - 0xD800) * 0x400 + (low - 0xDC00);
    (char::from_u32(code), at + 2)
}

/// Appends a character.
fn push_char(c: char, out: &mut Vec<u8>) -> Result<(), NoMemory>
    ensures written { OnOk result (out.new.items ≡ out.old.items ++ encode_utf8 c) }
    ensures unchanged { OnErr result (out.new.items ≡ out.old.items) }
{
    if (c as u32) < 0x80 {
        out.push(c as u8)?;
        return Ok(());
    }
    let mut bytes = [0; 4];
    let spelled = c.encode_utf8(&mut bytes);
    out.extend_from_slice(spelled.as_bytes())?;
    Ok(())
}
