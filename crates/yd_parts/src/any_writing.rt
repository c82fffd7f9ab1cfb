//! Writing any-values.

ghost use Rattle.std.specs.Prelude.{◌≡◌, ◌++◌, ◌∷◌, ◌<◌, ◌^◌, [], true, length, unsigned_abs, IsTrue, OnOk};
ghost use Rattle.yd_any.specs.AnyView.{any_tree, any_trees, any_fields, items_trees, entries_fields};
ghost use Rattle.yd_any.specs.Valid.{is_in_range, are_in_range, fields_are_in_range, is_valid_any};
ghost use Rattle.yd_num.specs.Writing.{shortest, shortest_signed, shortest_blob};
ghost use Rattle.yd_ops.specs.Value.{count_of};
ghost use Rattle.yd_parts.specs.AnyBytes.{bytes_of_any, bytes_of_trees, bytes_of_fields};
ghost use Rattle.yd_parts.specs.AnyBytes.{count_of_fields, signed_of, IsWritableText};
ghost use Rattle.yd_parts.specs.AnyBytes.{IsWritable, AreWritable, FieldsAreWritable};
ghost use Rattle.yd_parts.specs.AnyPlan.{byte_of_tag};
ghost use Rattle.yd_parts.specs.declared.tag.Tag.TheVariants as tags;

use crate::count::counted;
use crate::fault::NoMemory;
use crate::tag::{Tag, byte_of_tag};
use yd_any::{Any, AnyList, AnyPairs, Text};
use yd_num::{Bytes, Signed};

/// Writes an any-value behind the bytes (lib0, writeAny). A text, a byte string or a count of 2^53
/// or more finds no memory (own), and what the bytes are then is left open.
pub fn write_any(bytes: &mut Bytes, value: &Any) -> Result<(), NoMemory>
    requires { IsTrue (is_valid_any (any_tree value.now)) }
    ensures written { OnOk result (bytes.new ≡ bytes.old ++ bytes_of_any (any_tree value.now)) }
    ensures writable { OnOk result (IsWritable (any_tree value.now)) }
{
    write_value(bytes, value)
}

#[cycle(writing)]
fn write_value(bytes: &mut Bytes, value: &Any) -> Result<(), NoMemory>
    requires { is_in_range (any_tree value.now) ≡ true }
    ensures written { OnOk result (bytes.new ≡ bytes.old ++ bytes_of_any (any_tree value.now)) }
    ensures writable { OnOk result (IsWritable (any_tree value.now)) }
{
    match value {
        Any::Undefined => write_tag(bytes, Tag::Undefined),
        Any::Null => write_tag(bytes, Tag::Null),
        Any::Flag(false) => write_tag(bytes, Tag::False),
        Any::Flag(true) => write_tag(bytes, Tag::True),
        Any::Whole(n) => write_whole(bytes, *n),
        Any::Raw4(raw) => write_raw(bytes, Tag::Raw4, raw),
        Any::Raw8(raw) => write_raw(bytes, Tag::Raw8, raw),
        Any::Big(n) => write_raw(bytes, Tag::Big, &n.to_be_bytes()),
        Any::Str(text) => write_str(bytes, text.as_str()),
        Any::List(items) => write_list(bytes, items),
        Any::Pairs(entries) => write_pairs(bytes, entries),
        Any::Blob(blob) => write_blob(bytes, blob.as_slice()),
    }
}

fn write_tag(bytes: &mut Bytes, tag: Tag) -> Result<(), NoMemory>
    ensures { OnOk result (bytes.new ≡ bytes.old ++ byte_of_tag tag ∷ []) }
{
    bytes.push_byte(byte_of_tag(tag))?;
    Ok(())
}

fn write_whole(bytes: &mut Bytes, n: i64) -> Result<(), NoMemory>
    requires { unsigned_abs n < 2 ^ 53 }
    ensures { OnOk result (bytes.new
        ≡ bytes.old ++ byte_of_tag tags.Whole ∷ shortest_signed (signed_of n)) }
{
    write_tag(bytes, Tag::Whole)?;
    bytes.push_signed(Signed {
        negative: n < 0,
        size: n.unsigned_abs(),
    })?;
    Ok(())
}

fn write_raw(bytes: &mut Bytes, tag: Tag, raw: &[u8]) -> Result<(), NoMemory>
    ensures { OnOk result (bytes.new ≡ bytes.old ++ byte_of_tag tag ∷ raw.now) }
{
    write_tag(bytes, tag)?;
    bytes.push_all(raw)?;
    Ok(())
}

fn write_str(bytes: &mut Bytes, text: &str) -> Result<(), NoMemory>
    ensures written { OnOk result (bytes.new
        ≡ bytes.old ++ byte_of_tag tags.Str ∷ shortest_blob text.now) }
    ensures writable { OnOk result (IsWritableText text.now) }
{
    write_tag(bytes, Tag::Str)?;
    write_text(bytes, text)?;
    Ok(())
}

fn write_text(bytes: &mut Bytes, text: &str) -> Result<(), NoMemory>
    ensures written { OnOk result (bytes.new ≡ bytes.old ++ shortest_blob text.now) }
    ensures writable { OnOk result (IsWritableText text.now) }
{
    bytes.push_text(text)?;
    Ok(())
}

fn write_blob(bytes: &mut Bytes, blob: &[u8]) -> Result<(), NoMemory>
    ensures written { OnOk result (bytes.new
        ≡ bytes.old ++ byte_of_tag tags.Blob ∷ shortest_blob blob.now) }
    ensures writable { OnOk result (length blob.now < 2 ^ 53) }
{
    write_tag(bytes, Tag::Blob)?;
    bytes.push_blob(blob)?;
    Ok(())
}

fn write_count(bytes: &mut Bytes, tag: Tag, len: usize) -> Result<(), NoMemory>
    ensures written { OnOk result (bytes.new
        ≡ bytes.old ++ byte_of_tag tag ∷ shortest len) }
    ensures writable { OnOk result (len < 2 ^ 53) }
{
    let count = counted(len)?;
    write_tag(bytes, tag)?;
    bytes.push_unsigned(count)?;
    Ok(())
}

#[cycle(writing)]
fn write_list(bytes: &mut Bytes, items: &AnyList) -> Result<(), NoMemory>
    requires { are_in_range (any_trees items.now) ≡ true }
    ensures written { OnOk result (bytes.new ≡ bytes.old ++ byte_of_tag tags.List
        ∷ (shortest (count_of (any_trees items.now)) ++ bytes_of_trees (any_trees items.now))) }
    ensures in_range { OnOk result (count_of (any_trees items.now) < 2 ^ 53) }
    ensures writable { OnOk result (AreWritable (any_trees items.now)) }
{
    let items = items.as_slice();
    write_count(bytes, Tag::List, items.len())?;
    write_items(bytes, items)?;
    Ok(())
}

#[cycle(writing)]
fn write_items(bytes: &mut Bytes, items: &[Any]) -> Result<(), NoMemory>
    requires { are_in_range (items_trees items.now) ≡ true }
    ensures written { OnOk result (bytes.new
        ≡ bytes.old ++ bytes_of_trees (items_trees items.now)) }
    ensures writable { OnOk result (AreWritable (items_trees items.now)) }
{
    for item in items {
        write_value(bytes, item)?;
    }
    Ok(())
}

#[cycle(writing)]
fn write_pairs(bytes: &mut Bytes, entries: &AnyPairs) -> Result<(), NoMemory>
    requires { fields_are_in_range (any_fields entries.now) ≡ true }
    ensures written { OnOk result (bytes.new ≡ bytes.old ++ byte_of_tag tags.Pairs
        ∷ (shortest (count_of_fields (any_fields entries.now))
        ++ bytes_of_fields (any_fields entries.now))) }
    ensures in_range { OnOk result (count_of_fields (any_fields entries.now) < 2 ^ 53) }
    ensures writable { OnOk result (FieldsAreWritable (any_fields entries.now)) }
{
    let entries = entries.as_slice();
    write_count(bytes, Tag::Pairs, entries.len())?;
    write_entries(bytes, entries)?;
    Ok(())
}

#[cycle(writing)]
fn write_entries(bytes: &mut Bytes, entries: &[(Text, Any)]) -> Result<(), NoMemory>
    requires { fields_are_in_range (entries_fields entries.now) ≡ true }
    ensures written { OnOk result (bytes.new
        ≡ bytes.old ++ bytes_of_fields (entries_fields entries.now)) }
    ensures writable { OnOk result (FieldsAreWritable (entries_fields entries.now)) }
{
    for (key, item) in entries {
        write_text(bytes, key.as_str())?;
        write_value(bytes, item)?;
    }
    Ok(())
}
