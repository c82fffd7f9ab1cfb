//! Updates, written in V1.

ghost use Rattle.std.specs.Prelude.{◌≡◌, IfOk};
ghost use Rattle.yd_ops.specs.Valid.{IsValidUpdate};
ghost use Rattle.yd_ops.specs.View.{update_value};
ghost use Rattle.yd_fields.specs.UpdateFields.{fields_of_update};
ghost use Rattle.yd_v1.specs.Bytes.{v1_bytes_of_all};
ghost use Rattle.yd_v1.specs.Grammar.{StandsForV1};

use crate::writer::V1Writer;
use std::alloc::Global;
use yd_fields::{FieldWriter, write_update};
use yd_ops::Update;
use yd_parts::NoMemory;

/// The bytes of an update in V1, which stand for that update (Yjs 13, UpdateEncoderV1). Blocks
/// and structs keep their order. A text, a byte string or a count of 2^53 or more finds no memory
/// (own).
pub fn write_v1(alloc: Global, update: &Update) -> Result<Vec<u8>, NoMemory>
    requires { IsValidUpdate (update_value update.now) }
    ensures written { IfOk result (λ bytes. bytes.items
        ≡ v1_bytes_of_all (fields_of_update (update_value update.now))) }
    ensures read_again { IfOk result (λ bytes. StandsForV1 bytes.items (update_value update.now)) }
{
    let mut writer = V1Writer::new(alloc);
    write_update(alloc, update, &mut writer)?;
    let bytes = writer.finish()?;
    Ok(bytes)
}
