//! The texts of values.

ghost use Rattle.std.specs.Prelude.{◌≡◌, ◌++◌, IsTrue, IfOk, OnOk, OnErr};
ghost use Rattle.yd_any.specs.AnyView.{any_tree};
ghost use Rattle.yd_any.specs.JsonView.{json_tree};
ghost use Rattle.yd_any.specs.Valid.{is_valid_any, is_valid_json};
ghost use Rattle.yd_any.specs.Printed.{printed};

use crate::any_value::Any;
use crate::fault::NoMemory;
use crate::json_value::Json;
use crate::text::Text;
use crate::writing::{write_any, write_json};
use json::Writer;
use std::alloc::Global;
use std::mem;

/// The compact text of a JSON value.
pub fn text_of_json(alloc: Global, j: &Json) -> Result<Text, NoMemory>
    requires { IsTrue (is_valid_json (json_tree j.now)) }
    ensures { IfOk result (λ t. t ≡ printed (json_tree j.now)) }
{
    let mut writer = Writer::new(Vec::new(alloc));
    write_json(j, &mut writer)?;
    Text::of_bytes(writer.into_inner())
}

/// Appends the text of an any-value, in which what JSON does not have is an object with one key.
pub fn print_any(a: &Any, out: &mut Vec<u8>) -> Result<(), NoMemory>
    requires { IsTrue (is_valid_any (any_tree a.now)) }
    ensures appended { OnOk result (out.new.items ≡ out.old.items ++ printed (any_tree a.now)) }
    ensures unchanged { OnErr result (out.new.items ≡ out.old.items) }
{
    let alloc = *out.allocator();
    let len = out.len();
    let mut writer = Writer::new(mem::replace(out, Vec::new(alloc)));
    let wrote = write_any(alloc, a, &mut writer);
    *out = writer.into_inner();
    if wrote.is_err() {
        // What was written of the value goes again.
        out.truncate(len);
    }
    wrote
}
