//! Updates, read in V1.

ghost use Rattle.std.specs.Prelude.{IfOk};
ghost use Rattle.yd_ops.specs.Valid.{IsValidUpdate};
ghost use Rattle.yd_ops.specs.View.{update_value};
ghost use Rattle.yd_parts.specs.Fault.{FailsAs, Makes};
ghost use Rattle.yd_reading.specs.Answer.{ReadsWhole};
ghost use Rattle.yd_v1.specs.Grammar.{HasFirstFaultV1, StandsForV1};
ghost use Rattle.yd_v1.specs.Reading.{v1_reading};
ghost use Rattle.yd_v1.specs.Taking.{TakesStructsV1};

use crate::reader::V1Reader;
use std::alloc::Global;
use yd_fields::FieldReader;
use yd_ids::IdSet;
use yd_ops::Update;
use yd_parts::ReadError;
use yd_reading::{StructTaker, read_update, take_update};

/// Reads an update in format V1: the one update that the bytes stand for, or the first fault in
/// them (Yjs 13, decodeUpdate).
pub fn read_v1(alloc: Global, bytes: &[u8]) -> Result<Update, ReadError>
    ensures exact { ReadsWhole update_value
        (StandsForV1 bytes.now) (HasFirstFaultV1 bytes.now) result }
    ensures valid { IfOk result (λ update. IsValidUpdate (update_value update)) }
{
    read_update_v1(alloc, bytes)
}

/// Reads an update in format V1 as [`read_v1`] does, and hands its structs on one after another, so
/// that none is kept; it answers its deletions (Yjs 13, decodeUpdate). What the taker has after an
/// error is left open.
#[tactic(auto, unfolding(crate::specs::Reading::v1_whole))]
pub fn take_structs_v1<T: StructTaker>(
    alloc: Global,
    bytes: &[u8],
    taker: &mut T,
) -> Result<IdSet, ReadError>
    ensures took { IfOk result (λ deletes.
        TakesStructsV1 bytes.now deletes (T.took taker.old) (T.took taker.new)) }
    ensures fails { FailsAs result (v1_reading bytes.now) }
{
    let mut reader = V1Reader::new(bytes);
    let deletes = take_update(alloc, &mut reader, taker)?;
    reader.finish()?;
    Ok(deletes)
}

#[tactic(auto, unfolding(crate::specs::Reading::v1_whole))]
pub(crate) fn read_update_v1(alloc: Global, bytes: &[u8]) -> Result<Update, ReadError>
    ensures made { Makes update_value result (v1_reading bytes.now) }
    ensures valid { IfOk result (λ update. IsValidUpdate (update_value update)) }
{
    let mut reader = V1Reader::new(bytes);
    let update = read_update(alloc, &mut reader)?;
    reader.finish()?;
    Ok(update)
}
