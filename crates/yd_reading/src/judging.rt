//! Flags of parents and ranges of deletions, judged.

ghost use Rattle.std.specs.Prelude.{◌+◌, ◌<◌, ◌^◌, IfOk};
ghost use Rattle.yd_reading.specs.Judged.{flag_at, range_at};
ghost use Rattle.yd_parts.specs.Fault.{Makes, TakesNoMemory};

use yd_ops::ends_at_clock;
use yd_parts::{Cause, ReadError, Spot};

/// A parent's flag by the number that stands at a spot.
pub fn flag_of(number: u64, spot: Spot) -> Result<u8, ReadError>
    ensures made { Makes (λ flag. flag) result (flag_at spot number) }
    ensures memory { TakesNoMemory result }
{
    if number > 1 {
        return Err(ReadError::Fault {
            cause: Cause::BadParent,
            spot,
        });
    }
    Ok(number as u8)
}

/// A range by its clock, which stands at a spot, and its length.
pub fn range_of(clock: u64, len: u64, spot: Spot) -> Result<(u64, u64), ReadError>
    ensures made { Makes (λ range. range) result (range_at spot clock len) }
    ensures fits { IfOk result (λ range. range.0 + range.1 < 2 ^ 53) }
    ensures memory { TakesNoMemory result }
{
    if !ends_at_clock(clock, len) {
        return Err(ReadError::Fault {
            cause: Cause::ClockTooLarge,
            spot,
        });
    }
    Ok((clock, len))
}
