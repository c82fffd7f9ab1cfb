//! JSON values out of any-values.

ghost use Rattle.std.specs.Prelude.{IfOk, IsTrue, ◌≤◌};
ghost use Rattle.yd_any.specs.AnyView.{any_tree};
ghost use Rattle.yd_any.specs.JsonView.{json_tree};
ghost use Rattle.yd_any.specs.Outcome.{carried};
ghost use Rattle.yd_any.specs.Valid.{is_valid_any, is_valid_json};
ghost use Rattle.yd_fields.specs.JsonPlan.{made_at};
ghost use Rattle.yd_parts.specs.Fault.{Makes};

use std::alloc::Global;
use yd_any::{Any, Json, JsonFault, json_of_any};
use yd_parts::{Cause, ReadError, Spot};

/// The JSON value that carries an any-value, which stands at a spot.
pub fn json_of_value(alloc: Global, value: &Any, spot: Spot) -> Result<Json, ReadError>
    requires { IsTrue (is_valid_any (any_tree value.now)) }
    ensures made { Makes json_tree result (made_at spot (carried (any_tree value.now))) }
    ensures valid { IfOk result (λ j. IsTrue (is_valid_json (json_tree j))) }
{
    match json_of_any(alloc, value) {
        Ok(json) => Ok(json),
        Err(JsonFault::NoMemory) => Err(ReadError::NoMemory),
        Err(JsonFault::BadJson) => Err(ReadError::Fault {
            cause: Cause::BadJson,
            spot,
        }),
        Err(JsonFault::NumberNotCarried) => Err(ReadError::Fault {
            cause: Cause::NumberNotCarried,
            spot,
        }),
        Err(JsonFault::TooDeep) => Err(ReadError::Fault {
            cause: Cause::TooDeep,
            spot,
        }),
    }
}
