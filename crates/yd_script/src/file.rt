//! A script's file, read.

ghost use Rattle.std.specs.Prelude.{◌≡◌, MatchResult};
ghost use Rattle.yd_parts.specs.declared.fault.ReadError.TheVariants.{NoMemory};
ghost use Rattle.yd_reading.specs.Answer.{ReadsWhole};
ghost use Rattle.yd_script.specs.File.{HasFirstFaultScript, StandsForScript};

use simdutf8::basic::from_utf8;
use std::alloc::Global;
use yd_any::Text;
use yd_parts::{Cause, Column, ReadError, Spot};

/// Reads a script's file: the text that its bytes are, or that they are no UTF-8, with the place 0
/// (own).
pub fn read_script(alloc: Global, bytes: &[u8]) -> Result<Text, ReadError>
    ensures { ReadsWhole (λ text. text) (StandsForScript bytes.now)
        (HasFirstFaultScript bytes.now) result }
{
    match from_utf8(bytes) {
        Ok(text) => copied(alloc, text),
        Err(_) => Err(ReadError::Fault {
            cause: Cause::BadUtf8,
            spot: Spot {
                column: Column::Whole,
                at: 0,
            },
        }),
    }
}

// The text in memory of its own.
fn copied(alloc: Global, text: &str) -> Result<Text, ReadError>
    ensures { MatchResult result (λ copy. copy ≡ text.now) (λ error. error ≡ NoMemory) }
{
    match Text::copy_of(alloc, text) {
        Ok(copy) => Ok(copy),
        Err(_) => Err(ReadError::NoMemory),
    }
}
