//! Whether a text stands in a JSON text as it is.

ghost use Rattle.std.specs.Prelude.{◌≡◌, ◌+◌, ◌≤◌, length};
ghost use Rattle.std.specs.Bool.{OnTrue};
ghost use Rattle.json.specs.Print.{escape};
ghost use Rattle.json.specs.Written.{PlainBetween};

use std::simd::prelude::*;

/// True only where no byte of the text needs an escape.
#[inline(always)]
pub fn is_plain(text: &[u8]) -> bool
    ensures { OnTrue result (escape text.now ≡ text.now) }
{
    if text.len() < 16 {
        is_plain_short(text)
    } else {
        is_plain_long(text)
    }
}

#[inline(always)]
fn is_plain_short(text: &[u8]) -> bool
    ensures { OnTrue result (PlainBetween text.now 0 (length text.now)) }
{
    for &byte in text {
        if byte == b'"' || byte == b'\\' || byte < 0x20 {
            return false;
        }
    }
    true
}

fn is_plain_long(text: &[u8]) -> bool
    requires { 16 ≤ length text.now }
    ensures { OnTrue result (PlainBetween text.now 0 (length text.now)) }
{
    let mut at = 0;
    while text.len() - at > 16 {
        if !are_plain(text, at) {
            return false;
        }
        at += 16;
    }
    // The last bytes overlap what was seen before.
    are_plain(text, text.len() - 16)
}

/// True only where none of sixteen bytes from this place on needs an escape.
#[inline(always)]
fn are_plain(text: &[u8], at: usize) -> bool
    requires { at + 16 ≤ length text.now }
    ensures { OnTrue result (PlainBetween text.now at (at + 16)) }
{
    let bytes = u8x16::from_slice(&text[at..]);
    let quotes = bytes.simd_eq(u8x16::splat(b'"'));
    let backslashes = bytes.simd_eq(u8x16::splat(b'\\'));
    let controls = bytes.simd_lt(u8x16::splat(0x20));
    (quotes | backslashes | controls).to_bitmask() == 0
}
