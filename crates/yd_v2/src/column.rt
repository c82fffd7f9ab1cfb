//! Values of columns, with their spots.

ghost use Rattle.std.specs.Prelude.{◌≡◌};
ghost use Rattle.yd_cols.specs.Reading.{next_byte, next_diff, next_string, next_uint};
ghost use Rattle.yd_parts.specs.Fault.{Makes, TakesNoMemory};
ghost use Rattle.yd_v2.specs.Answer.{GivesIn, IsRefusal};
ghost use Rattle.yd_v2.specs.Part.{fault_in, in_column};

use yd_cols::{ByteReader, ColCause, ColFault, IntDiffReader, StringReader, UintReader};
use yd_parts::{Cause, Column, ReadError, Spot};

/// The next number of a column, and where its run begins.
pub fn uint_in(column: Column, values: &mut UintReader<'_>) -> Result<(u64, Spot), ReadError>
    ensures given { GivesIn (λ v. v) column (λ uints. uints.at) values.new result
        (next_uint values.old) }
    ensures memory { TakesNoMemory result }
{
    match values.next() {
        Err(fault) => Err(refusal(column, fault)),
        Ok(value) => Ok((value, spot_at(column, values.place()))),
    }
}

/// The next number of a column of differences, and where its run begins.
pub fn diff_in(column: Column, values: &mut IntDiffReader<'_>) -> Result<(u64, Spot), ReadError>
    ensures given { GivesIn (λ v. v) column (λ diffs. diffs.runs.at) values.new result
        (next_diff values.old) }
    ensures memory { TakesNoMemory result }
{
    match values.next() {
        Err(fault) => Err(refusal(column, fault)),
        Ok(value) => Ok((value, spot_at(column, values.place()))),
    }
}

/// The next byte of a column, and where its run begins.
pub fn byte_in(column: Column, values: &mut ByteReader<'_>) -> Result<(u8, Spot), ReadError>
    ensures given { GivesIn (λ b. b) column (λ bytes. bytes.runs.at) values.new result
        (next_byte values.old) }
    ensures memory { TakesNoMemory result }
{
    match values.next() {
        Err(fault) => Err(refusal(column, fault)),
        Ok(value) => Ok((value, spot_at(column, values.place()))),
    }
}

/// The next string of a column, and where the run of its length begins.
pub fn string_in<'a>(
    column: Column,
    values: &mut StringReader<'a>,
) -> Result<(&'a str, Spot), ReadError>
    ensures given { GivesIn (λ s. s.now) column (λ strings. strings.lengths.at) values.new result
        (next_string values.old) }
    ensures memory { TakesNoMemory result }
{
    match values.next() {
        Err(fault) => Err(refusal(column, fault)),
        Ok(value) => Ok((value, spot_at(column, values.place()))),
    }
}

/// Whether a column has ended.
pub fn end_in(column: Column, end: Result<(), ColFault>) -> Result<(), ReadError>
    ensures made { Makes (λ done. done) result (in_column column end) }
    ensures memory { TakesNoMemory result }
{
    match end {
        Err(fault) => Err(refusal(column, fault)),
        Ok(()) => Ok(()),
    }
}

/// A column's fault, with its spot.
pub fn refusal(column: Column, fault: ColFault) -> ReadError
    ensures { IsRefusal (fault_in column fault) result }
{
    let cause = match fault.cause {
        ColCause::ShortInput => Cause::ShortInput,
        ColCause::NumberTooLarge => Cause::NumberTooLarge,
        ColCause::BadUtf8 => Cause::BadUtf8,
        ColCause::HalfPair => Cause::HalfPair,
        ColCause::ColumnLeft => Cause::ColumnLeft,
    };
    ReadError::Fault {
        cause,
        spot: spot_at(column, fault.at),
    }
}

fn spot_at(column: Column, place: usize) -> Spot
    ensures { result ≡ record { column = column; at = place } }
{
    Spot {
        column,
        at: place as u64,
    }
}
