//! The cut of an update by a vector, from bytes to bytes.

ghost use Rattle.std.specs.Prelude.{◌≡◌, IfOk, IfSome};
ghost use Rattle.yd_ids.specs.Vector.{clock_of};
ghost use Rattle.yd_ops.specs.Valid.{IsValidUpdate};
ghost use Rattle.yd_ops.specs.View.{update_value};
ghost use Rattle.yd_grouping.specs.Merged.{cut_update};
ghost use Rattle.yd_parts.specs.Fault.{FailsAs};
ghost use Rattle.yd_v1.specs.Reading.{v1_reading};
ghost use Rattle.yd_skimming.specs.BlockWriting.{IsWrittenAs};
ghost use Rattle.yd_skimming.specs.Cutting.{CutsV1};

use crate::cutter::{CutBy, CutWriter, Cutter};
use std::alloc::Global;
use std::marker::{Brand, PhantomData};
use yd_ids::Vector;
use yd_ops::Update;
use yd_parts::{NoMemory, ReadError};
use yd_v1::{read_v1, take_structs_v1, write_v1};

/// What the update of these bytes has from a vector on, with all its deletions, as one grouped
/// update in V1, or the first fault in the bytes (Yjs 13, diffUpdate; whole pairs are own). Where
/// the structs come in the order of writing and none joins another, it is written while the bytes
/// are read, and no struct is kept. Else the update is kept, and cut in memory.
pub fn cut_v1(alloc: Global, bytes: &[u8], vector: &Vector) -> Result<Vec<u8>, ReadError>
    ensures cut { IfOk result (λ written. CutsV1 bytes.now (clock_of vector.now) written.items) }
    ensures fails { FailsAs result (v1_reading bytes.now) }
{
    match cut_plainly::<Brand>(alloc, bytes, vector)? {
        Some(written) => Ok(written),
        None => cut_kept(alloc, bytes, vector),
    }
}

/// The same, while the bytes are read, or nothing where that does not serve.
fn cut_plainly<V: CutBy>(
    alloc: Global,
    bytes: &[u8],
    vector: &Vector,
) -> Result<Option<Vec<u8>>, ReadError>
    requires { V.vector ≡ vector.now }
    ensures cut { IfOk result (λ cut. IfSome cut (λ written.
        CutsV1 bytes.now (clock_of vector.now) written.items)) }
    ensures fails { FailsAs result (v1_reading bytes.now) }
{
    let mut writer = CutWriter::<V> {
        cutter: Cutter::new(alloc, vector),
        by: PhantomData,
    };
    let deletes = take_structs_v1(alloc, bytes, &mut writer)?;
    if !writer.cutter.is_plain {
        return Ok(None);
    }
    let written = writer.cutter.finish(alloc, &deletes)?;
    Ok(Some(written))
}

/// The same, by keeping the update.
fn cut_kept(alloc: Global, bytes: &[u8], vector: &Vector) -> Result<Vec<u8>, ReadError>
    ensures cut { IfOk result (λ written. CutsV1 bytes.now (clock_of vector.now) written.items) }
    ensures fails { FailsAs result (v1_reading bytes.now) }
{
    match read_v1(alloc, bytes) {
        Err(error) => Err(error),
        Ok(update) => {
            let written = write_cut(alloc, &update, vector)?;
            Ok(written)
        }
    }
}

/// The cut of an update, written.
fn write_cut(alloc: Global, update: &Update, vector: &Vector) -> Result<Vec<u8>, NoMemory>
    requires { IsValidUpdate (update_value update.now) }
    ensures { IfOk result (λ written. IsWrittenAs written.items
        (cut_update (update_value update.now) (clock_of vector.now))) }
{
    match yd_merge::cut(alloc, update, vector) {
        Err(_) => Err(NoMemory),
        Ok(cut) => {
            let written = write_v1(alloc, &cut)?;
            Ok(written)
        }
    }
}
