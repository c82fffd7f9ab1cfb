//! Updates as bytes, and back.

ghost use Rattle.std.specs.Prelude.{◌≡◌, ◌≤◌, IfOk, IfErr, IsTrue};
ghost use Rattle.yd_ops.specs.Valid.{IsValidUpdate};
ghost use Rattle.yd_ops.specs.View.{update_value};
ghost use Rattle.yd_fields.specs.UpdatePlan.{structs_in};
ghost use Rattle.yd_v2.specs.Reading.{most_structs};
ghost use Rattle.yd_generating.specs.declared.fault.GenerateFault.TheVariants.{NoMemory as NoRoom};

use crate::fault::GenerateFault;
use std::alloc::Global;
use yd_ops::Update;
use yd_v1::{read_v1, write_v1};
use yd_v2::{read_v2, write_v2};

/// The most structs that a file in V2 has.
const MOST_STRUCTS: u64 = 4_194_304;

/// The same update, written and read again: in V1 at each twentieth step, and else in V2.
pub(crate) fn through(alloc: Global, step: u64, update: &Update) -> Result<Update, GenerateFault>
    requires { IsValidUpdate (update_value update.now) }
    ensures same { IfOk result (λ again. update_value again ≡ update_value update.now) }
    ensures valid { IfOk result (λ again. IsValidUpdate (update_value again)) }
    ensures memory { IfErr result (λ fault. fault ≡ NoRoom) }
{
    // V2 has no room for very many structs.
    if step % 20 == 0 || !fits_v2(update) {
        let again = through_v1(alloc, update)?;
        return Ok(again);
    }
    let again = through_v2(alloc, update)?;
    Ok(again)
}

fn through_v1(alloc: Global, update: &Update) -> Result<Update, GenerateFault>
    requires { IsValidUpdate (update_value update.now) }
    ensures same { IfOk result (λ again. update_value again ≡ update_value update.now) }
    ensures valid { IfOk result (λ again. IsValidUpdate (update_value again)) }
    ensures memory { IfErr result (λ fault. fault ≡ NoRoom) }
{
    let bytes = write_v1(alloc, update)?;
    match read_v1(alloc, bytes.as_slice()) {
        Ok(again) => Ok(again),
        Err(_) => Err(GenerateFault::NoMemory),
    }
}

fn through_v2(alloc: Global, update: &Update) -> Result<Update, GenerateFault>
    requires valid { IsValidUpdate (update_value update.now) }
    requires fits { structs_in (update_value update.now).blocks ≤ most_structs }
    ensures same { IfOk result (λ again. update_value again ≡ update_value update.now) }
    ensures valid { IfOk result (λ again. IsValidUpdate (update_value again)) }
    ensures memory { IfErr result (λ fault. fault ≡ NoRoom) }
{
    let bytes = write_v2(alloc, update)?;
    match read_v2(alloc, bytes.as_slice()) {
        Ok(again) => Ok(again),
        Err(_) => Err(GenerateFault::NoMemory),
    }
}

/// The update has no more structs than a file in V2 may have.
fn fits_v2(update: &Update) -> bool
    ensures { IsTrue result → structs_in (update_value update.now).blocks ≤ most_structs }
{
    let mut left = MOST_STRUCTS;
    for block in update.blocks.as_slice() {
        let len = block.structs.as_slice().len() as u64;
        if left < len {
            return false;
        }
        left -= len;
    }
    true
}
