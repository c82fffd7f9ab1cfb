//! Values as tokens of a JSON text.

ghost use Rattle.std.specs.Prelude.{◌∷◌, codes, true};
ghost use Rattle.std.specs.Fmt.{signed_decimal};
ghost use Rattle.json.specs.Token.{begin_object, begin_array, string, boolean};
ghost use Rattle.hex.specs.Hex.{encode_lower};
ghost use Rattle.yd_any.specs.AnyView.{any_tree, any_trees, any_fields};
ghost use Rattle.yd_any.specs.JsonView.{json_tree, json_trees, json_fields};
ghost use Rattle.yd_any.specs.Printed.{marked, WritesAll};
ghost use Rattle.yd_any.specs.Printed.{tokens_of, tokens_of_trees, tokens_of_fields};

use crate::any_value::{Any, AnyList, AnyPairs};
use crate::fault::NoMemory;
use crate::json_value::{Json, JsonFields, JsonList};
use json::Writer;
use std::alloc::Global;

/// Writes a JSON value.
#[cycle(write_json)]
pub fn write_json(value: &Json, out: &mut Writer) -> Result<(), NoMemory>
    ensures { WritesAll result out.old out.new (tokens_of (json_tree value.now)) }
{
    match value {
        Json::Null => out.null()?,
        Json::Flag(b) => out.boolean(*b)?,
        Json::Whole(n) => out.i64(i64::from(*n))?,
        Json::Str(text) => out.string(text.as_str())?,
        Json::List(items) => write_list(items, out)?,
        Json::Fields(entries) => write_fields(entries, out)?,
    }
    Ok(())
}

#[cycle(write_json)]
fn write_list(items: &JsonList, out: &mut Writer) -> Result<(), NoMemory>
    ensures { WritesAll result out.old out.new
        (begin_array ∷ tokens_of_trees (json_trees items.now)) }
{
    out.begin_array()?;
    for item in &items.items {
        write_json(item, out)?;
    }
    out.end_array()?;
    Ok(())
}

#[cycle(write_json)]
fn write_fields(entries: &JsonFields, out: &mut Writer) -> Result<(), NoMemory>
    ensures { WritesAll result out.old out.new
        (begin_object ∷ tokens_of_fields (json_fields entries.now)) }
{
    out.begin_object()?;
    for entry in &entries.items {
        out.key(entry.0.as_str())?;
        write_json(&entry.1, out)?;
    }
    out.end_object()?;
    Ok(())
}

/// Writes an any-value.
#[cycle(write_any)]
pub fn write_any(alloc: Global, value: &Any, out: &mut Writer) -> Result<(), NoMemory>
    ensures { WritesAll result out.old out.new (tokens_of (any_tree value.now)) }
{
    match value {
        Any::Undefined => write_undefined(out)?,
        Any::Null => out.null()?,
        Any::Flag(b) => out.boolean(*b)?,
        Any::Whole(n) => out.i64(*n)?,
        Any::Raw4(bytes) => write_hex(alloc, "$raw4", bytes.as_slice(), out)?,
        Any::Raw8(bytes) => write_hex(alloc, "$raw8", bytes.as_slice(), out)?,
        Any::Big(n) => write_big(*n, out)?,
        Any::Str(text) => out.string(text.as_str())?,
        Any::List(items) => write_any_list(alloc, items, out)?,
        Any::Pairs(entries) => write_pairs(alloc, entries, out)?,
        Any::Blob(bytes) => write_hex(alloc, "$blob", bytes.as_slice(), out)?,
    }
    Ok(())
}

#[cycle(write_any)]
fn write_any_list(alloc: Global, items: &AnyList, out: &mut Writer) -> Result<(), NoMemory>
    ensures { WritesAll result out.old out.new
        (begin_array ∷ tokens_of_trees (any_trees items.now)) }
{
    out.begin_array()?;
    for item in &items.items {
        write_any(alloc, item, out)?;
    }
    out.end_array()?;
    Ok(())
}

#[cycle(write_any)]
fn write_pairs(alloc: Global, entries: &AnyPairs, out: &mut Writer) -> Result<(), NoMemory>
    ensures { WritesAll result out.old out.new
        (begin_object ∷ tokens_of_fields (any_fields entries.now)) }
{
    out.begin_object()?;
    for entry in &entries.items {
        out.key(entry.0.as_str())?;
        write_any(alloc, &entry.1, out)?;
    }
    out.end_object()?;
    Ok(())
}

fn write_undefined(out: &mut Writer) -> Result<(), NoMemory>
    ensures { WritesAll result out.old out.new (marked (codes "$undefined") (boolean true)) }
{
    out.begin_object()?;
    out.key("$undefined")?;
    out.boolean(true)?;
    out.end_object()?;
    Ok(())
}

fn write_big(n: i64, out: &mut Writer) -> Result<(), NoMemory>
    ensures { WritesAll result out.old out.new (marked (codes "$big") (string (signed_decimal n))) }
{
    out.begin_object()?;
    out.key("$big")?;
    out.quoted_i64(n)?;
    out.end_object()?;
    Ok(())
}

/// Writes bytes in hexadecimal digits of lower case, under the name of their kind.
fn write_hex(alloc: Global, name: &str, bytes: &[u8], out: &mut Writer) -> Result<(), NoMemory>
    ensures { WritesAll result out.old out.new (marked name.now (string (encode_lower bytes.now))) }
{
    let digits = hex::encode(alloc, bytes)?;
    out.begin_object()?;
    out.key(name)?;
    out.string(digits.as_str())?;
    out.end_object()?;
    Ok(())
}
