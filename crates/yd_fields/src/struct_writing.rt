//! Writing structs.

ghost use Rattle.std.specs.Prelude.{◌≡◌, ◌<◌, ◌≤◌, ◌^◌, map, OnOk};
ghost use Rattle.yd_words.specs.Each.{Each};
ghost use Rattle.yd_ops.specs.Value.{item, skip, gone};
ghost use Rattle.yd_ops.specs.View.{content_value, run_value, struct_value};
ghost use Rattle.yd_fields.specs.UpdateFields.{fields_of_struct, fields_of_structs};
ghost use Rattle.yd_fields.specs.UpdateFields.{given_bit, info_of_run, key_bit, kind_bits, origin_bit};
ghost use Rattle.yd_fields.specs.Writes.{IsWritableRun, IsWritableStruct, Writes};

use crate::content_writing::write_content;
use crate::info::{
    KEY_BIT, KIND_ANY, KIND_BINARY, KIND_DELETED, KIND_EMBED, KIND_FORMAT, KIND_GONE, KIND_JSON,
    KIND_NESTED, KIND_SKIP, KIND_STRING, LEFT_BIT, RIGHT_BIT,
};
use crate::list_writing::{write_left, write_list, write_right};
use crate::writer::FieldWriter;
use std::alloc::Global;
use yd_any::Text;
use yd_ids::Id;
use yd_ops::{Content, List, Run, Struct};
use yd_parts::NoMemory;

/// Structs, one after another.
pub fn write_structs<W: FieldWriter>(
    alloc: Global,
    structs: &[Struct],
    writer: &mut W,
) -> Result<(), NoMemory>
    requires { Each IsWritableStruct (map struct_value structs.now) }
    ensures { OnOk result (Writes W.with_field W.is_spelled
        (fields_of_structs (map struct_value structs.now)) writer.old writer.new) }
{
    for entry in structs {
        write_struct(alloc, entry, writer)?;
    }
    Ok(())
}

/// A struct.
pub fn write_struct<W: FieldWriter>(
    alloc: Global,
    entry: &Struct,
    writer: &mut W,
) -> Result<(), NoMemory>
    requires { IsWritableStruct (struct_value entry.now) }
    ensures { OnOk result (Writes W.with_field W.is_spelled
        (fields_of_struct (struct_value entry.now)) writer.old writer.new) }
{
    match entry {
        Struct::Item(run) => write_run(alloc, run, writer),
        Struct::Skip(count) => write_skip(*count, writer),
        Struct::Gone(count) => write_gone(*count, writer),
    }
}

fn write_skip<W: FieldWriter>(count: u64, writer: &mut W) -> Result<(), NoMemory>
    requires { count < 2 ^ 53 }
    ensures { OnOk result (Writes W.with_field W.is_spelled
        (fields_of_struct (skip count)) writer.old writer.new) }
{
    writer.put_info(KIND_SKIP)?;
    writer.put_number(count)?;
    Ok(())
}

fn write_gone<W: FieldWriter>(count: u64, writer: &mut W) -> Result<(), NoMemory>
    requires { count < 2 ^ 53 }
    ensures { OnOk result (Writes W.with_field W.is_spelled
        (fields_of_struct (gone count)) writer.old writer.new) }
{
    writer.put_info(KIND_GONE)?;
    writer.put_length(count)?;
    Ok(())
}

fn write_run<W: FieldWriter>(alloc: Global, run: &Run, writer: &mut W) -> Result<(), NoMemory>
    requires { IsWritableRun (run_value run.now) }
    ensures { OnOk result (Writes W.with_field W.is_spelled
        (fields_of_struct (item (run_value run.now))) writer.old writer.new) }
{
    writer.put_info(info_of_run(run))?;
    write_left(run.left, writer)?;
    write_right(run.right, writer)?;
    write_list(&run.list, writer)?;
    write_content(alloc, &run.content, writer)?;
    Ok(())
}

fn info_of_run(run: &Run) -> u8
    ensures { result ≡ info_of_run (run_value run.now) }
{
    kind_bits(&run.content)
        + key_bit(&run.list)
        + origin_bit(RIGHT_BIT, run.right)
        + origin_bit(LEFT_BIT, run.left)
}

fn kind_bits(content: &Content) -> u8
    ensures bits { result ≡ kind_bits (content_value content.now) }
    ensures small { result < 32 }
{
    match content {
        Content::Json(_) => KIND_JSON,
        Content::Binary(_) => KIND_BINARY,
        Content::Str(_) => KIND_STRING,
        Content::Embed(_) => KIND_EMBED,
        Content::Format { .. } => KIND_FORMAT,
        Content::Nested(_) => KIND_NESTED,
        Content::Any(_) => KIND_ANY,
        Content::Deleted(_) => KIND_DELETED,
    }
}

/// The bit of a list with a key.
pub fn key_bit(list: &Option<List>) -> u8
    ensures bit { result ≡ key_bit list.now }
    ensures small { result ≤ 32 }
{
    match list {
        None => 0,
        Some(list) => given_bit(&list.key),
    }
}

fn given_bit(key: &Option<Text>) -> u8
    ensures bit { result ≡ given_bit key.now }
    ensures small { result ≤ 32 }
{
    match key {
        None => 0,
        Some(_) => KEY_BIT,
    }
}

/// The bit of an origin that is there.
pub fn origin_bit(bit: u8, origin: Option<Id>) -> u8
    ensures bit { result ≡ origin_bit bit origin }
    ensures small { result ≤ bit }
{
    match origin {
        None => 0,
        Some(_) => bit,
    }
}
