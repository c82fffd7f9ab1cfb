//! Shown values as bytes of a JSON text.

ghost use Rattle.std.specs.Prelude.{◌≡◌, ◌++◌, codes, false};
ghost use Rattle.std.specs.Fmt.{signed_decimal};
ghost use Rattle.hex.specs.Hex.{encode_lower};
ghost use Rattle.yd_value.specs.Texts.{Appends, comma_if, enclosed, text_of, text_of_trees, text_of_fields};
ghost use Rattle.yd_value.specs.View.{shown_tree, shown_trees, shown_fields, tree_of_element};

use crate::fault::NoMemory;
use crate::printer::Printer;
use crate::shown::{Shown, ShownElement, ShownFields, ShownList};
use itoa::Buffer;
use std::alloc::Global;

/// Writes a shown value.
#[cycle(write_shown)]
pub fn write_shown(alloc: Global, value: &Shown, out: &mut Printer) -> Result<(), NoMemory>
    ensures { Appends result out.old out.new (text_of (shown_tree value.now)) }
{
    match value {
        Shown::Undefined => out.put(b"{\"$undefined\":true}")?,
        Shown::Null => out.put(b"null")?,
        Shown::Flag(true) => out.put(b"true")?,
        Shown::Flag(false) => out.put(b"false")?,
        Shown::Whole(n) => out.put_whole(*n)?,
        Shown::Raw4(bytes) => write_hex(alloc, b"{\"$raw4\":\"", bytes.as_slice(), out)?,
        Shown::Raw8(bytes) => write_hex(alloc, b"{\"$raw8\":\"", bytes.as_slice(), out)?,
        Shown::Big(n) => write_big(*n, out)?,
        Shown::Str(text) => out.enclose(b"\"", text.as_str(), b"\"")?,
        Shown::List(items) => write_list(alloc, items, out)?,
        Shown::Fields(entries) => write_fields(alloc, entries, out)?,
        Shown::Element(element) => write_element(alloc, element, out)?,
        Shown::Blob(bytes) => write_hex(alloc, b"{\"$blob\":\"", bytes.as_slice(), out)?,
    }
    Ok(())
}

#[cycle(write_shown)]
fn write_element(alloc: Global, element: &ShownElement, out: &mut Printer) -> Result<(), NoMemory>
    ensures { Appends result out.old out.new (text_of (tree_of_element element.now)) }
{
    write_attributes(alloc, &element.attributes, out)?;
    write_shown(alloc, &element.children, out)?;
    out.enclose(b",\"name\":\"", element.name.as_str(), b"\"}")?;
    Ok(())
}

/// Writes what stands in front of an element's children.
#[cycle(write_shown)]
fn write_attributes(
    alloc: Global,
    attributes: &ShownFields,
    out: &mut Printer,
) -> Result<(), NoMemory>
    ensures { Appends result out.old out.new (codes "{\"attributes\":{"
        ++ (text_of_fields false (shown_fields attributes.now) ++ codes ",\"children\":")) }
{
    if attributes.items.is_empty() {
        return out.put(b"{\"attributes\":{},\"children\":");
    }
    out.put(b"{\"attributes\":")?;
    write_fields(alloc, attributes, out)?;
    out.put(b",\"children\":")?;
    Ok(())
}

#[cycle(write_shown)]
fn write_list(alloc: Global, items: &ShownList, out: &mut Printer) -> Result<(), NoMemory>
    ensures { Appends result out.old out.new
        (codes "[" ++ text_of_trees false (shown_trees items.now)) }
{
    out.put(b"[")?;
    let mut after = false;
    for item in &items.items {
        out.put_comma(after)?;
        write_shown(alloc, item, out)?;
        after = true;
    }
    out.put(b"]")?;
    Ok(())
}

#[cycle(write_shown)]
fn write_fields(alloc: Global, entries: &ShownFields, out: &mut Printer) -> Result<(), NoMemory>
    ensures { Appends result out.old out.new
        (codes "{" ++ text_of_fields false (shown_fields entries.now)) }
{
    out.put(b"{")?;
    let mut after = false;
    for entry in &entries.items {
        out.enclose(key_opening(after), entry.0.as_str(), b"\":")?;
        write_shown(alloc, &entry.1, out)?;
        after = true;
    }
    out.put(b"}")?;
    Ok(())
}

fn key_opening(after: bool) -> &'static [u8]
    ensures { result.now ≡ comma_if after ++ codes "\"" }
{
    if after { b",\"" } else { b"\"" }
}

fn write_big(n: i64, out: &mut Printer) -> Result<(), NoMemory>
    ensures { Appends result out.old out.new
        (enclosed (codes "{\"$big\":\"") (signed_decimal n) (codes "\"}")) }
{
    out.enclose(b"{\"$big\":\"", Buffer::new().format(n), b"\"}")
}

/// Writes bytes in hexadecimal digits of lower case, after the name of their kind.
fn write_hex(alloc: Global, opening: &[u8], bytes: &[u8], out: &mut Printer) -> Result<(), NoMemory>
    ensures { Appends result out.old out.new
        (enclosed opening.now (encode_lower bytes.now) (codes "\"}")) }
{
    let digits = hex::encode(alloc, bytes)?;
    out.enclose(opening, digits.as_str(), b"\"}")
}
