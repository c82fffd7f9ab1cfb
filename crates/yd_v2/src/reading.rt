//! Updates, read in V2.

ghost use Rattle.std.specs.Prelude.{IfOk};
ghost use Rattle.yd_ops.specs.Valid.{IsValidUpdate};
ghost use Rattle.yd_ops.specs.View.{update_value};
ghost use Rattle.yd_parts.specs.Fault.{Makes};
ghost use Rattle.yd_reading.specs.Answer.{ReadsWhole};
ghost use Rattle.yd_v2.specs.Grammar.{HasFirstFaultV2, StandsForV2};
ghost use Rattle.yd_v2.specs.Reading.{v2_reading};

use crate::reader::V2Reader;
use std::alloc::Global;
use yd_fields::FieldReader;
use yd_ops::Update;
use yd_parts::ReadError;
use yd_reading::read_update;

/// Reads an update in format V2 of at most 4,194,304 structs: the one update that the bytes stand
/// for, or the first fault in them (Yjs 13, decodeUpdateV2; the limit is own).
pub fn read_v2(alloc: Global, bytes: &[u8]) -> Result<Update, ReadError>
    ensures exact { ReadsWhole update_value
        (StandsForV2 bytes.now) (HasFirstFaultV2 bytes.now) result }
    ensures valid { IfOk result (λ update. IsValidUpdate (update_value update)) }
{
    read_update_v2(alloc, bytes)
}

#[tactic(auto, unfolding(crate::specs::Reading::v2_whole))]
fn read_update_v2(alloc: Global, bytes: &[u8]) -> Result<Update, ReadError>
    ensures made { Makes update_value result (v2_reading bytes.now) }
    ensures valid { IfOk result (λ update. IsValidUpdate (update_value update)) }
{
    let mut reader = V2Reader::new(alloc, bytes)?;
    let update = read_update(alloc, &mut reader)?;
    reader.finish()?;
    Ok(update)
}
