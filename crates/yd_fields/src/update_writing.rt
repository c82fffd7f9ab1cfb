//! Writing updates.

ghost use Rattle.std.specs.Prelude.{◌≡◌, ◌<◌, ◌^◌, map, IfOk, OnOk};
ghost use Rattle.yd_words.specs.Each.{Each};
ghost use Rattle.yd_ops.specs.Valid.{IsValidBlock, IsValidUpdate};
ghost use Rattle.yd_ops.specs.View.{block_value, update_value};
ghost use Rattle.yd_fields.specs.UpdateFields.{fields_of_block, fields_of_blocks, fields_of_update};
ghost use Rattle.yd_fields.specs.Writes.{Writes, with_fields};

use crate::delete_writing::write_deletes;
use crate::struct_writing::write_structs;
use crate::writer::FieldWriter;
use std::alloc::Global;
use yd_ops::{Block, Update};
use yd_parts::{NoMemory, counted};

/// Writes the fields of an update in the format of the writer (Yjs 13, update encoders). A count of
/// 2^53 or more finds no memory (own).
pub fn write_update<W: FieldWriter>(
    alloc: Global,
    update: &Update,
    writer: &mut W,
) -> Result<(), NoMemory>
    requires { IsValidUpdate (update_value update.now) }
    ensures put { OnOk result (writer.new
        ≡ with_fields W.with_field (fields_of_update (update_value update.now)) writer.old) }
    ensures spelled { OnOk result (Each W.is_spelled (fields_of_update (update_value update.now))) }
{
    let blocks = update.blocks.as_slice();
    let count = counted(blocks.len())?;
    writer.put_number(count)?;
    write_blocks(alloc, blocks, writer)?;
    write_deletes(alloc, &update.deletes, writer)?;
    Ok(())
}

fn write_blocks<W: FieldWriter>(
    alloc: Global,
    blocks: &[Block],
    writer: &mut W,
) -> Result<(), NoMemory>
    requires { Each IsValidBlock (map block_value blocks.now) }
    ensures { OnOk result (Writes W.with_field W.is_spelled
        (fields_of_blocks (map block_value blocks.now)) writer.old writer.new) }
{
    for block in blocks {
        write_block(alloc, block, writer)?;
    }
    Ok(())
}

fn write_block<W: FieldWriter>(alloc: Global, block: &Block, writer: &mut W) -> Result<(), NoMemory>
    requires { IsValidBlock (block_value block.now) }
    ensures { OnOk result (Writes W.with_field W.is_spelled
        (fields_of_block (block_value block.now)) writer.old writer.new) }
{
    let structs = block.structs.as_slice();
    let count = counted(structs.len())?;
    writer.put_number(count)?;
    writer.put_client(block.client.0)?;
    writer.put_number(block.clock)?;
    write_structs(alloc, structs, writer)?;
    Ok(())
}
