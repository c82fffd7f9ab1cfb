//! JSON values and units of texts.

ghost use Rattle.std.specs.Prelude.{IsTrue, IfOk};
ghost use Rattle.yd_any.specs.JsonView.{json_tree};
ghost use Rattle.yd_any.specs.Valid.{is_valid_json};
ghost use Rattle.yd_ops.specs.Valid.{IsValidUnit};
ghost use Rattle.yd_ops.specs.View.{unit_value};
ghost use Rattle.yd_parts.specs.Fault.{Makes};
ghost use Rattle.yd_fields.specs.JsonPlan.{unit_at, value_at};

use std::alloc::Global;
use yd_any::{Json, JsonFault, json_of_text};
use yd_ops::JsonUnit;
use yd_parts::{Cause, ReadError, Spot};

/// The value of a JSON text that stands at a spot.
pub fn value_of_text(alloc: Global, text: &str, spot: Spot) -> Result<Json, ReadError>
    ensures made { Makes json_tree result (value_at spot text.now) }
    ensures valid { IfOk result (λ j. IsTrue (is_valid_json (json_tree j))) }
{
    match json_of_text(alloc, text) {
        Ok(value) => Ok(value),
        Err(JsonFault::NoMemory) => Err(ReadError::NoMemory),
        Err(JsonFault::BadJson) => Err(ReadError::Fault {
            cause: Cause::BadJson,
            spot,
        }),
        Err(JsonFault::NumberNotCarried) => Err(ReadError::Fault {
            cause: Cause::NumberNotCarried,
            spot,
        }),
        Err(JsonFault::TooDeep) => Err(ReadError::Fault {
            cause: Cause::TooDeep,
            spot,
        }),
    }
}

/// The JSON unit of a text that stands at a spot.
pub fn unit_of_text(alloc: Global, text: &str, spot: Spot) -> Result<JsonUnit, ReadError>
    ensures made { Makes unit_value result (unit_at spot text.now) }
    ensures valid { IfOk result (λ unit. IsValidUnit (unit_value unit)) }
{
    if text == "undefined" {
        return Ok(JsonUnit::Undefined);
    }
    let value = value_of_text(alloc, text, spot)?;
    Ok(JsonUnit::Value(value))
}
