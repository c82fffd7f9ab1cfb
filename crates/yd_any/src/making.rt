//! JSON values made of values of `serde_json`.

ghost use Rattle.std.specs.Prelude.{◌≡◌, IsTrue, IfOk, None};
ghost use Rattle.serde_json.specs.View.{view, number_view, items_view, members_view};
ghost use Rattle.yd_any.specs.Tree.{whole};
ghost use Rattle.yd_any.specs.JsonView.{json_tree, json_trees, json_fields};
ghost use Rattle.yd_any.specs.Valid.{is_json, are_json, fields_are_json};
ghost use Rattle.yd_any.specs.Carried.{is_carried, are_carried, fields_are_carried};
ghost use Rattle.yd_any.specs.DataTree.{number_tree, data_tree, data_trees, data_fields};

use crate::fault::NoMemory;
use crate::json_value::{Json, JsonFields, JsonList};
use crate::text::Text;
use serde_json::{Map, Number, Value};
use std::alloc::Global;

/// The JSON value of a value in which each number is carried.
#[cycle(make)]
pub fn make(alloc: Global, value: &Value) -> Result<Json, NoMemory>
    requires { IsTrue (is_carried (data_tree (view value.now))) }
    ensures same { IfOk result (λ j. json_tree j ≡ data_tree (view value.now)) }
    ensures json { IfOk result (λ j. IsTrue (is_json (json_tree j))) }
{
    match value {
        Value::Null => Ok(Json::Null),
        Value::Bool(b) => Ok(Json::Flag(*b)),
        Value::Number(number) => Ok(Json::Whole(whole_of(number))),
        Value::String(text) => Ok(Json::Str(Text::copy_of(alloc, text.as_str())?)),
        Value::Array(items) => Ok(Json::List(make_list(alloc, items)?)),
        Value::Object(members) => Ok(Json::Fields(make_fields(alloc, members)?)),
    }
}

#[cycle(make)]
fn make_list(alloc: Global, items: &Vec<Value>) -> Result<JsonList, NoMemory>
    requires { IsTrue (are_carried (data_trees (items_view items.now.items))) }
    ensures same { IfOk result (λ j. json_trees j ≡ data_trees (items_view items.now.items)) }
    ensures json { IfOk result (λ j. IsTrue (are_json (json_trees j))) }
{
    let mut made = Vec::new(alloc);
    for item in items {
        made.push(make(alloc, item)?)?;
    }
    Ok(JsonList { items: made })
}

#[cycle(make)]
fn make_fields(alloc: Global, members: &Map<String, Value>) -> Result<JsonFields, NoMemory>
    requires { IsTrue (fields_are_carried (data_fields (members_view members.now.entries))) }
    ensures same { IfOk result (λ j. json_fields j
        ≡ data_fields (members_view members.now.entries)) }
    ensures json { IfOk result (λ j. IsTrue (fields_are_json None (json_fields j))) }
{
    let mut made = Vec::new(alloc);
    for (key, member) in members.iter() {
        made.push((Text::copy_of(alloc, key.as_str())?, make(alloc, member)?))?;
    }
    Ok(JsonFields { items: made })
}

/// A number that JSON values carry.
fn whole_of(number: &Number) -> i32
    requires { IsTrue (is_carried (number_tree (number_view number.now))) }
    ensures { whole result ≡ number_tree (number_view number.now) }
{
    number.as_i64().unwrap() as i32
}
