//! Log files, read.

ghost use Rattle.std.specs.Prelude.{◌+◌, ◌<◌, ◌^◌, length, map, IfOk, OnOk};
ghost use Rattle.yd_words.specs.Each.{Each};
ghost use Rattle.yd_ops.specs.Valid.{IsValidUpdate};
ghost use Rattle.yd_ops.specs.View.{update_value};
ghost use Rattle.yd_parts.specs.Fault.{FailsAs, Makes};
ghost use Rattle.yd_reading.specs.Answer.{ReadsWhole};
ghost use Rattle.yd_v1.specs.Log.{HasFirstFaultLog, HasPlace, IsLog, IsMoved, StandsForLog, TakesEntries, TakesEntry, TakesLog, TakesV1, entry_at, log_reading, read_in_file};
ghost use Rattle.yd_v1.specs.Reading.{v1_reading};

use crate::logs::{UpdateList, UpdateTaker};
use std::alloc::Global;
use yd_parts::{Column, Parts, ReadError, Spot};

/// Reads a log file: the updates that it stands for, in order, or the first fault in it, with the
/// causes of V1 and a spot that counts in the file (own).
pub fn read_log(alloc: Global, bytes: &[u8]) -> Result<UpdateList, ReadError>
    ensures exact { ReadsWhole (λ list. map update_value list)
        (StandsForLog bytes.now) (HasFirstFaultLog bytes.now) result }
    ensures valid { IfOk result (λ list. Each IsValidUpdate (map update_value list)) }
{
    read_list(alloc, bytes)
}

/// Reads a log file as [`read_log`] does, and hands its updates on one after another, so that none
/// is kept. After an error those before the fault were handed on (own).
pub fn take_log<T: UpdateTaker>(alloc: Global, bytes: &[u8], taker: &mut T) -> Result<(), ReadError>
    ensures exact { ReadsWhole (λ done. done)
        (λ done. IsLog bytes.now) (HasFirstFaultLog bytes.now) result }
    ensures taken { OnOk result (TakesLog bytes.now (T.took taker.old) (T.took taker.new)) }
{
    take_entries(alloc, bytes, taker)
}

fn read_list(alloc: Global, bytes: &[u8]) -> Result<UpdateList, ReadError>
    ensures made { Makes (λ list. map update_value list) result (log_reading bytes.now) }
    ensures valid { IfOk result (λ list. Each IsValidUpdate (map update_value list)) }
{
    let mut list = UpdateList::new(alloc);
    take_entries(alloc, bytes, &mut list)?;
    Ok(list)
}

fn take_entries<T: UpdateTaker>(alloc: Global, bytes: &[u8], taker: &mut T) -> Result<(), ReadError>
    ensures taken { OnOk result (TakesEntries bytes.now (T.took taker.old) (T.took taker.new)) }
    ensures fails { FailsAs result (log_reading bytes.now) }
{
    let mut parts = Parts::new(Column::Whole, bytes);
    for _ in 0..bytes.len() {
        if parts.left() == 0 {
            return Ok(());
        }
        take_next_entry(alloc, &mut parts, taker)?;
    }
    Ok(())
}

#[tactic(auto, unfolding(crate::specs::Log::entry_at))]
fn take_next_entry<T: UpdateTaker>(
    alloc: Global,
    parts: &mut Parts<'_>,
    taker: &mut T,
) -> Result<(), ReadError>
    ensures taken { OnOk result
        (TakesEntry parts.old parts.new (T.took taker.old) (T.took taker.new)) }
    ensures fails { FailsAs result (entry_at parts.old) }
{
    let body = parts.blob()?;
    let start = parts.here().at.saturating_sub(body.len() as u64);
    take_body(alloc, body, start, taker)?;
    Ok(())
}

// Takes the update of a body that begins at a place of the file.
fn take_body<T: UpdateTaker>(
    alloc: Global,
    body: &[u8],
    start: u64,
    taker: &mut T,
) -> Result<(), ReadError>
    requires { start + length body.now < 2 ^ 64 }
    ensures taken { OnOk result (TakesV1 body.now (T.took taker.old) (T.took taker.new)) }
    ensures fails { FailsAs result (read_in_file start (v1_reading body.now)) }
{
    match taker.take_v1(alloc, body) {
        Ok(()) => Ok(()),
        Err(error) => Err(moved(error, start)),
    }
}

// The error as it is in the file.
fn moved(error: ReadError, start: u64) -> ReadError
    requires { HasPlace start error }
    ensures { IsMoved start error result }
{
    match error {
        ReadError::NoMemory => ReadError::NoMemory,
        ReadError::Fault { cause, spot } => ReadError::Fault {
            cause,
            spot: Spot {
                column: spot.column,
                at: start + spot.at,
            },
        },
    }
}
