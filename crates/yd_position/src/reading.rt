//! Positions, read.

ghost use Rattle.std.specs.Prelude.{◌≡◌, ◌<◌, ◌^◌, IfOk};
ghost use Rattle.yd_position.specs.Writing.{HasIds};
ghost use Rattle.yd_parts.specs.AnyPlan.{whole_number};
ghost use Rattle.yd_position.specs.Grammar.{ReadsPosition};
ghost use Rattle.yd_position.specs.Reading.{MakesPosition, position_reading, number_fault, error_of, with_assoc};

use crate::fault::PositionFault;
use crate::position::{Position, Target};
use crate::targets::read_target;
use std::alloc::Global;
use yd_num::{NumFault, Signed};
use yd_parts::{Cause, Column, Parts, ReadError};

/// Reads a position: the one that the bytes stand for, or their first deviation. Where nothing
/// follows what it points at, `assoc` is 0 (Yjs 13, decodeRelativePosition; that bytes behind the
/// position are refused, and the limits of numbers, are own).
pub fn read_position(alloc: Global, bytes: &[u8]) -> Result<Position, PositionFault>
    ensures exact { ReadsPosition bytes.now result }
    ensures ids { IfOk result (λ position. HasIds position.target) }
{
    read_parts(alloc, bytes)
}

#[tactic(auto, unfolding(crate::specs::Reading::position_reading))]
fn read_parts(alloc: Global, bytes: &[u8]) -> Result<Position, PositionFault>
    ensures made { MakesPosition result (position_reading bytes.now) }
    ensures ids { IfOk result (λ position. HasIds position.target) }
{
    let mut parts = Parts::new(Column::Whole, bytes);
    match read_target(alloc, &mut parts) {
        Err(error) => Err(error_of(error)),
        Ok(None) => Err(PositionFault::BadForm(0)),
        Ok(Some(target)) => read_assoc(target, &mut parts),
    }
}

/// The position with this target, and with the association that is left.
fn read_assoc(target: Target, parts: &mut Parts<'_>) -> Result<Position, PositionFault>
    ensures made { MakesPosition result (with_assoc target parts.old) }
    ensures kept { IfOk result (λ position. position.target ≡ target) }
{
    if parts.left() == 0 {
        return Ok(Position { target, assoc: 0 });
    }
    match parts.signed() {
        Err(error) => Err(error_of(error)),
        Ok(number) => {
            if parts.left() > 0 {
                let place = parts.here().at as usize;
                return Err(PositionFault::Trailing(place));
            }
            Ok(Position {
                target,
                assoc: whole_number(number),
            })
        }
    }
}

/// The integer that a signed number is.
fn whole_number(number: Signed) -> i64
    requires { number.size < 2 ^ 55 }
    ensures { result ≡ whole_number number }
{
    let size = number.size as i64;
    if number.negative { -size } else { size }
}

/// The fault of a number or a text that cannot be read.
fn error_of(error: ReadError) -> PositionFault
    ensures { result ≡ error_of error }
{
    match error {
        ReadError::NoMemory => PositionFault::NoMemory,
        ReadError::Fault { cause, spot } => {
            PositionFault::Number(number_fault(cause, spot.at as usize))
        }
    }
}

fn number_fault(cause: Cause, place: usize) -> NumFault
    ensures { result ≡ number_fault cause place }
{
    match cause {
        Cause::ShortInput => NumFault::ShortInput(place),
        Cause::BadUtf8 => NumFault::BadUtf8(place),
        _ => NumFault::NumberTooLarge(place),
    }
}
