//! The value of one unit of a content.

ghost use Rattle.std.specs.Prelude.{◌≡◌, ◌<◌, ◌∷◌, [], ℕ, IfOk, length, slice_get, Some};
ghost use Rattle.yd_any.specs.Tree.{str, undefined};
ghost use Rattle.yd_units.specs.Text.{text_of as text_of_units};
ghost use Rattle.yd_ops.specs.Operation.{UnitContent, units_of_content};
ghost use Rattle.yd_ops.specs.Value.{len_of};
ghost use Rattle.yd_ops.specs.View.{content_value, unit_value};
ghost use Rattle.yd_value.specs.View.{shown_tree};
ghost use Rattle.yd_modes.specs.Roles.{plain_value};
ghost use Rattle.yd_ops.specs.Operation.{json_unit};

use crate::fault::NoMemory;
use crate::texts::text_of;
use std::alloc::Global;
use yd_ops::{Content, JsonUnit};
use yd_units::Units;
use yd_value::Shown;

/// The value of a unit of a content, counted from 0. What has no value is undefined, and so is a
/// type.
pub fn plain_at(alloc: Global, content: &Content, at: u64) -> Result<Shown, NoMemory>
    requires { at < len_of (content_value content.now) }
    ensures { IfOk result (λ shown. (unit : UnitContent)
        → slice_get (units_of_content (content_value content.now)) at ≡ Some unit
        → shown_tree shown ≡ plain_value unit) }
{
    match content {
        Content::Str(units) => plain_text(alloc, units, at),
        Content::Any(values) => {
            let shown = Shown::of_any(alloc, &values.as_slice()[at as usize])?;
            Ok(shown)
        }
        Content::Json(units) => plain_json(alloc, &units.as_slice()[at as usize]),
        Content::Binary(blob) => Ok(Shown::Blob(blob.copy()?)),
        Content::Embed(value) => {
            let shown = Shown::of_json(alloc, value)?;
            Ok(shown)
        }
        Content::Format { .. } => Ok(Shown::Undefined),
        Content::Nested(_) => Ok(Shown::Undefined),
        Content::Deleted(_) => Ok(Shown::Undefined),
    }
}

/// The text of one unit.
fn plain_text(alloc: Global, units: &Units, at: u64) -> Result<Shown, NoMemory>
    requires { at < length units.now }
    ensures { IfOk result (λ shown. (unit : ℕ) → slice_get units.now at ≡ Some unit
        → shown_tree shown ≡ str (text_of_units (unit ∷ []))) }
{
    let mut one = Vec::new(alloc);
    if let Some(unit) = units.unit(at) {
        one.push(unit)?;
    }
    let shown = text_of(alloc, Units::of_units(one))?;
    Ok(shown)
}

/// The value of a JSON unit.
fn plain_json(alloc: Global, unit: &JsonUnit) -> Result<Shown, NoMemory>
    ensures { IfOk result (λ shown. shown_tree shown
        ≡ plain_value (json_unit (unit_value unit.now))) }
{
    match unit {
        JsonUnit::Undefined => Ok(Shown::Undefined),
        JsonUnit::Value(value) => {
            let shown = Shown::of_json(alloc, value)?;
            Ok(shown)
        }
    }
}
