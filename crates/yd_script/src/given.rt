//! Numbers and values that go with the word of a line.

ghost use Rattle.std.specs.Prelude.{◌≡◌, IfOk, IsTrue, map};
ghost use Rattle.serde_json.specs.View.{view};
ghost use Rattle.yd_any.specs.AnyView.{any_tree, any_trees};
ghost use Rattle.yd_any.specs.JsonView.{json_tree};
ghost use Rattle.yd_any.specs.Valid.{is_valid_any, is_valid_json};
ghost use Rattle.yd_ops.specs.Valid.{AreValidTrees};
ghost use Rattle.yd_script.specs.Given.{Answers, assoc_in, number_in, trees_in, value_in, values_in};

use crate::fault::LineFault;
use serde_json::Value;
use std::alloc::Global;
use yd_any::{Any, AnyList, Json, JsonFault, any_of_json, json_of_value};

/// The greatest index or length.
const MOST_UNITS: u64 = (1 << 53) - 1;

/// An index or a length.
pub fn number_of(value: &Value) -> Option<u64>
    ensures { result ≡ number_in (view value.now) }
{
    let number = value.as_u64()?;
    if number > MOST_UNITS {
        return None;
    }
    Some(number)
}

/// An association: a whole number of the same size, or one below 0.
pub fn assoc_of(value: &Value) -> Option<i64>
    ensures { result ≡ assoc_in (view value.now) }
{
    let number = value.as_i64()?;
    if number.unsigned_abs() > MOST_UNITS {
        return None;
    }
    Some(number)
}

/// A value that JSON values carry.
pub fn json_of(alloc: Global, value: &Value) -> Result<Json, LineFault>
    ensures value { Answers json_tree (value_in (view value.now)) result }
    ensures valid { IfOk result (λ j. IsTrue (is_valid_json (json_tree j))) }
{
    match json_of_value(alloc, value) {
        Ok(json) => Ok(json),
        Err(JsonFault::NoMemory) => Err(LineFault::NoMemory),
        Err(_) => Err(LineFault::BadLine),
    }
}

/// The same as an any-value.
pub fn any_of(alloc: Global, value: &Value) -> Result<Any, LineFault>
    ensures value { Answers any_tree (value_in (view value.now)) result }
    ensures valid { IfOk result (λ a. IsTrue (is_valid_any (any_tree a))) }
{
    let json = json_of(alloc, value)?;
    let any = any_of_json(alloc, &json)?;
    Ok(any)
}

/// `[VALUE,..]`
pub fn values_of(alloc: Global, value: &Value) -> Result<AnyList, LineFault>
    ensures values { Answers any_trees (values_in (view value.now)) result }
    ensures valid { IfOk result (λ values. AreValidTrees (any_trees values)) }
{
    match value {
        Value::Array(items) => list_of(alloc, items.as_slice()),
        _ => Err(LineFault::BadLine),
    }
}

/// Values one after another.
fn list_of(alloc: Global, items: &[Value]) -> Result<AnyList, LineFault>
    ensures values { Answers any_trees (trees_in (map view items.now)) result }
    ensures valid { IfOk result (λ values. AreValidTrees (any_trees values)) }
{
    let mut values = AnyList::new(alloc);
    for item in items {
        let value = any_of(alloc, item)?;
        values.push(value)?;
    }
    Ok(values)
}
