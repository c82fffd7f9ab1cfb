//! Writing structs of which a text is lent.

ghost use Rattle.std.specs.Prelude.{◌≡◌, [], ◌∷◌, OnOk};
ghost use Rattle.yd_units.specs.Text.{text_of, units_of};
ghost use Rattle.yd_ops.specs.Value.{item};
ghost use Rattle.yd_fields.specs.Field as field;
ghost use Rattle.yd_fields.specs.Lent.{lent_run, lent_struct};
ghost use Rattle.yd_fields.specs.UpdateFields.{fields_of_struct, info_of_run};
ghost use Rattle.yd_fields.specs.Writes.{IsWritableRun, IsWritableStruct, Writes};

use crate::info::{KIND_STRING, LEFT_BIT, RIGHT_BIT};
use crate::lent::{LentRun, LentStruct};
use crate::list_writing::{write_left, write_list, write_right};
use crate::struct_writing::{key_bit, origin_bit, write_struct};
use crate::writer::FieldWriter;
use std::alloc::Global;
use yd_parts::NoMemory;

/// Writes the fields of a struct in the format of the writer (Yjs 13, update encoders). A text that
/// is lent is not copied before.
pub fn write_lent<W: FieldWriter>(
    alloc: Global,
    entry: &LentStruct<'_>,
    writer: &mut W,
) -> Result<(), NoMemory>
    requires { IsWritableStruct (lent_struct entry.now) }
    ensures { OnOk result (Writes W.with_field W.is_spelled
        (fields_of_struct (lent_struct entry.now)) writer.old writer.new) }
{
    match entry {
        LentStruct::Text(run) => write_lent_run(run, writer),
        LentStruct::Made(entry) => write_struct(alloc, entry, writer),
    }
}

fn write_lent_run<W: FieldWriter>(run: &LentRun<'_>, writer: &mut W) -> Result<(), NoMemory>
    requires { IsWritableRun (lent_run run.now) }
    ensures { OnOk result (Writes W.with_field W.is_spelled
        (fields_of_struct (item (lent_run run.now))) writer.old writer.new) }
{
    writer.put_info(info_of_lent(run))?;
    write_left(run.left, writer)?;
    write_right(run.right, writer)?;
    write_list(&run.list, writer)?;
    write_text(run.text.as_str(), writer)?;
    Ok(())
}

fn info_of_lent(run: &LentRun<'_>) -> u8
    ensures { result ≡ info_of_run (lent_run run.now) }
{
    KIND_STRING
        + key_bit(&run.list)
        + origin_bit(RIGHT_BIT, run.right)
        + origin_bit(LEFT_BIT, run.left)
}

// The units of a text are written as the text.
fn write_text<W: FieldWriter>(text: &str, writer: &mut W) -> Result<(), NoMemory>
    ensures { OnOk result (Writes W.with_field W.is_spelled
        ((field.string, text_of (units_of text.now)) ∷ []) writer.old writer.new) }
{
    writer.put_string(text)?;
    Ok(())
}
