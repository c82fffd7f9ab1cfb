//! Writing the contents of items.

ghost use Rattle.std.specs.Prelude.{[], ◌∷◌, map, OnOk};
ghost use Rattle.yd_words.specs.Each.{Each};
ghost use Rattle.yd_any.specs.AnyView.{any_trees, items_trees};
ghost use Rattle.yd_ops.specs.Valid.{AreValidTrees, IsValidUnit};
ghost use Rattle.yd_ops.specs.Value.{any};
ghost use Rattle.yd_ops.specs.View.{content_value, unit_value};
ghost use Rattle.yd_units.specs.Text.{text_of};
ghost use Rattle.yd_fields.specs.Field as field;
ghost use Rattle.yd_fields.specs.TypeNumber.{number_of_kind};
ghost use Rattle.yd_fields.specs.UpdateFields.{field_of_unit, fields_of_content, fields_of_kind, fields_of_trees};
ghost use Rattle.yd_fields.specs.Writes.{IsWritableContent, Writes};

use crate::kinds::{TypeKind, number_of_kind};
use crate::writer::FieldWriter;
use std::alloc::Global;
use yd_any::{Any, AnyList, text_of_json};
use yd_ops::{Content, JsonUnit, Kind};
use yd_parts::{NoMemory, counted};
use yd_units::Units;

/// The content of an item.
pub fn write_content<W: FieldWriter>(
    alloc: Global,
    content: &Content,
    writer: &mut W,
) -> Result<(), NoMemory>
    requires { IsWritableContent (content_value content.now) }
    ensures { OnOk result (Writes W.with_field W.is_spelled
        (fields_of_content (content_value content.now)) writer.old writer.new) }
{
    match content {
        Content::Json(units) => {
            let units = units.as_slice();
            let count = counted(units.len())?;
            writer.put_length(count)?;
            write_units(alloc, units, writer)?;
            Ok(())
        }
        Content::Binary(bytes) => {
            writer.put_blob(bytes.as_slice())?;
            Ok(())
        }
        Content::Str(units) => write_string(alloc, units, writer),
        Content::Embed(value) => {
            writer.put_json(value)?;
            Ok(())
        }
        Content::Format { key, value } => {
            writer.put_key(key.as_str())?;
            writer.put_json(value)?;
            Ok(())
        }
        Content::Nested(kind) => write_kind(kind, writer),
        Content::Any(values) => write_values(values, writer),
        Content::Deleted(count) => {
            writer.put_length(*count)?;
            Ok(())
        }
    }
}

fn write_string<W: FieldWriter>(
    alloc: Global,
    units: &Units,
    writer: &mut W,
) -> Result<(), NoMemory>
    ensures { OnOk result (Writes W.with_field W.is_spelled
        ((field.string, text_of units.now) ∷ []) writer.old writer.new) }
{
    let mut bytes = Vec::new(alloc);
    units.write_text(&mut bytes)?;
    let text = String::from_utf8(bytes).unwrap();
    writer.put_string(text.as_str())?;
    Ok(())
}

fn write_units<W: FieldWriter>(
    alloc: Global,
    units: &[JsonUnit],
    writer: &mut W,
) -> Result<(), NoMemory>
    requires { Each IsValidUnit (map unit_value units.now) }
    ensures { OnOk result (Writes W.with_field W.is_spelled
        (map field_of_unit (map unit_value units.now)) writer.old writer.new) }
{
    for unit in units {
        write_unit(alloc, unit, writer)?;
    }
    Ok(())
}

fn write_unit<W: FieldWriter>(
    alloc: Global,
    unit: &JsonUnit,
    writer: &mut W,
) -> Result<(), NoMemory>
    requires { IsValidUnit (unit_value unit.now) }
    ensures { OnOk result (Writes W.with_field W.is_spelled
        (field_of_unit (unit_value unit.now) ∷ []) writer.old writer.new) }
{
    match unit {
        JsonUnit::Undefined => {
            writer.put_string("undefined")?;
            Ok(())
        }
        JsonUnit::Value(value) => {
            let text = text_of_json(alloc, value)?;
            writer.put_string(text.as_str())?;
            Ok(())
        }
    }
}

fn write_values<W: FieldWriter>(values: &AnyList, writer: &mut W) -> Result<(), NoMemory>
    requires { AreValidTrees (any_trees values.now) }
    ensures { OnOk result (Writes W.with_field W.is_spelled
        (fields_of_content (any (any_trees values.now))) writer.old writer.new) }
{
    let items = values.as_slice();
    let count = counted(items.len())?;
    writer.put_length(count)?;
    write_items(items, writer)?;
    Ok(())
}

fn write_items<W: FieldWriter>(items: &[Any], writer: &mut W) -> Result<(), NoMemory>
    requires { AreValidTrees (items_trees items.now) }
    ensures { OnOk result (Writes W.with_field W.is_spelled
        (fields_of_trees (items_trees items.now)) writer.old writer.new) }
{
    for item in items {
        writer.put_any(item)?;
    }
    Ok(())
}

fn write_kind<W: FieldWriter>(kind: &Kind, writer: &mut W) -> Result<(), NoMemory>
    ensures { OnOk result (Writes W.with_field W.is_spelled
        (fields_of_kind kind.now) writer.old writer.new) }
{
    match kind {
        Kind::Array => write_plain_kind(TypeKind::Array, writer),
        Kind::Map => write_plain_kind(TypeKind::Map, writer),
        Kind::Text => write_plain_kind(TypeKind::Text, writer),
        Kind::Element(name) => write_named_kind(TypeKind::Element, name.as_str(), writer),
        Kind::Fragment => write_plain_kind(TypeKind::Fragment, writer),
        Kind::Hook(name) => write_named_kind(TypeKind::Hook, name.as_str(), writer),
        Kind::ElementText => write_plain_kind(TypeKind::ElementText, writer),
    }
}

fn write_plain_kind<W: FieldWriter>(kind: TypeKind, writer: &mut W) -> Result<(), NoMemory>
    ensures { OnOk result (Writes W.with_field W.is_spelled
        ((field.kind, number_of_kind kind) ∷ []) writer.old writer.new) }
{
    writer.put_kind(number_of_kind(kind))?;
    Ok(())
}

fn write_named_kind<W: FieldWriter>(
    kind: TypeKind,
    name: &str,
    writer: &mut W,
) -> Result<(), NoMemory>
    ensures { OnOk result (Writes W.with_field W.is_spelled
        ((field.kind, number_of_kind kind) ∷ (field.key, name.now) ∷ []) writer.old writer.new) }
{
    writer.put_kind(number_of_kind(kind))?;
    writer.put_key(name)?;
    Ok(())
}
