//! The fields at the front of a slice, each with how many bytes it takes.

ghost use Rattle.yd_num.specs.Front.{StandsAtFront};
ghost use Rattle.yd_num.specs.Number.{unsigned_at};
ghost use Rattle.yd_num.specs.Signed.{signed_at};
ghost use Rattle.yd_num.specs.Text.{bytes_at, blob_at, text_at};

use crate::fault::NumFault;
use crate::groups::{Groups, groups_of};
use crate::signed::Signed;
use simdutf8::basic::from_utf8;

/// The greatest unsigned number, 2^53-1, the last up to which JavaScript counts exactly.
pub const MOST: u64 = (1 << 53) - 1;

/// How many groups of seven bits most numbers have at most: a client of 32 bits has five.
const FEW: usize = 5;

/// An unsigned number. Most have few groups.
#[inline(always)]
#[tactic(auto, using(crate::proofs::NumberLemmas::few_groups))]
pub fn unsigned_of(bytes: &[u8], place: usize) -> Result<(u64, usize), NumFault>
    ensures { StandsAtFront (λ v. v) bytes.now place result (unsigned_at bytes.now) }
{
    match groups_of(bytes, FEW) {
        Groups::Number { value, len } => Ok((value, len)),
        Groups::Short | Groups::Long => any_unsigned_of(bytes, place),
    }
}

// An unsigned number of any length.
#[inline(never)]
#[tactic(auto, unfolding(crate::specs::Number::unsigned_at))]
fn any_unsigned_of(bytes: &[u8], place: usize) -> Result<(u64, usize), NumFault>
    ensures { StandsAtFront (λ v. v) bytes.now place result (unsigned_at bytes.now) }
{
    match groups_of(bytes, 8) {
        Groups::Short => Err(NumFault::ShortInput(place)),
        Groups::Long => Err(NumFault::NumberTooLarge(place)),
        Groups::Number { value, len } => {
            if value > MOST {
                return Err(NumFault::NumberTooLarge(place));
            }
            Ok((value, len))
        }
    }
}

/// A signed number, of which the first byte has the sign and six bits.
#[tactic(auto, unfolding(crate::specs::Signed::signed_at))]
pub fn signed_of(bytes: &[u8], place: usize) -> Result<(Signed, usize), NumFault>
    ensures { StandsAtFront (λ s. s) bytes.now place result (signed_at bytes.now) }
{
    let Some((first, rest)) = bytes.split_first() else {
        return Err(NumFault::ShortInput(place));
    };
    let negative = first % 128 >= 64;
    let low = u64::from(first % 64);
    if *first < 128 {
        return Ok((
            Signed {
                negative,
                size: low,
            },
            1,
        ));
    }
    match groups_of(rest, 7) {
        Groups::Short => Err(NumFault::ShortInput(place)),
        Groups::Long => Err(NumFault::NumberTooLarge(place)),
        Groups::Number { value, len } => {
            let size = low + 64 * value;
            Ok((Signed { negative, size }, 1 + len))
        }
    }
}

/// So many bytes.
#[tactic(auto, unfolding(crate::specs::Text::bytes_at))]
pub fn bytes_of(bytes: &[u8], count: u64, place: usize) -> Result<(&[u8], usize), NumFault>
    ensures { StandsAtFront (λ b. b.now) bytes.now place result (bytes_at count bytes.now) }
{
    if count > bytes.len() as u64 {
        return Err(NumFault::ShortInput(place));
    }
    let len = count as usize;
    let (front, _) = bytes.split_at(len);
    Ok((front, len))
}

/// A byte string.
#[tactic(auto, unfolding(crate::specs::Text::blob_at))]
pub fn blob_of(bytes: &[u8], place: usize) -> Result<(&[u8], usize), NumFault>
    ensures { StandsAtFront (λ b. b.now) bytes.now place result (blob_at bytes.now) }
{
    let (size, head) = unsigned_of(bytes, place)?;
    let (_, rest) = bytes.split_at(head);
    let (blob, len) = bytes_of(rest, size, place)?;
    Ok((blob, head + len))
}

/// A text.
#[tactic(auto, unfolding(crate::specs::Text::text_at))]
pub fn text_of(bytes: &[u8], place: usize) -> Result<(&str, usize), NumFault>
    ensures { StandsAtFront (λ t. t.now) bytes.now place result (text_at bytes.now) }
{
    let (blob, len) = blob_of(bytes, place)?;
    match from_utf8(blob) {
        Ok(text) => Ok((text, len)),
        Err(_) => Err(NumFault::BadUtf8(place)),
    }
}
