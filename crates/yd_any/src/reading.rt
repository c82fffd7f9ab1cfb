//! JSON values of texts, read by `serde_json`.

ghost use Rattle.std.specs.Prelude.{◌≡◌, ◌⊎◌, IsTrue, Err, IfOk};
ghost use Rattle.serde_json.specs.Read.{read as read_text};
ghost use Rattle.serde_json.specs.View.{view};
ghost use Rattle.serde_json.specs.Errors.{IsMemory};
ghost use Rattle.yd_any.specs.declared.fault.JsonFault.TheVariants.{NoMemory as NoRoom, BadJson};
ghost use Rattle.yd_any.specs.JsonView.{json_tree};
ghost use Rattle.yd_any.specs.Valid.{is_valid_json};
ghost use Rattle.yd_any.specs.DataTree.{data_tree};
ghost use Rattle.yd_any.specs.Outcome.{judged, judged_reading, Gives};

use crate::any_validity::MOST_DEPTH;
use crate::data::{is_carried, is_within};
use crate::fault::JsonFault;
use crate::json_value::Json;
use crate::making::make;
use serde_json::Value;
use std::alloc::Global;

/// The JSON value of a text, as `serde_json` reads it: of equal keys the last one stands, and depth
/// and numbers are judged on the value that is so read.
pub fn json_of_text(alloc: Global, t: &str) -> Result<Json, JsonFault>
    ensures answers { (result ≡ Err NoRoom) ⊎ Gives (judged_reading (read_text t.now)) result }
    ensures valid { IfOk result (λ j. IsTrue (is_valid_json (json_tree j))) }
{
    match Value::from_str(alloc, t) {
        Ok(value) => json_of_value(alloc, &value),
        Err(e) => Err(text_fault(&e)),
    }
}

/// Why a text was not read.
fn text_fault(e: &serde_json::Error) -> JsonFault
    ensures memory { IsMemory e.now → result ≡ NoRoom }
    ensures text { ¬ IsMemory e.now → result ≡ BadJson }
{
    if e.is_memory() {
        JsonFault::NoMemory
    } else {
        JsonFault::BadJson
    }
}

/// The JSON value of what `serde_json` read.
pub fn json_of_value(alloc: Global, v: &Value) -> Result<Json, JsonFault>
    ensures answers { Gives (judged (data_tree (view v.now))) result }
    ensures valid { IfOk result (λ j. IsTrue (is_valid_json (json_tree j))) }
{
    if !is_within(v, MOST_DEPTH) {
        return Err(JsonFault::TooDeep);
    }
    if !is_carried(v) {
        return Err(JsonFault::NumberNotCarried);
    }
    let made = make(alloc, v)?;
    Ok(made)
}
