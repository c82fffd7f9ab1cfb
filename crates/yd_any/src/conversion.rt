//! The ways between any-values and JSON values.

ghost use Rattle.std.specs.Prelude.{◌≡◌, ◌≤◌, IsTrue, IfOk};
ghost use Rattle.yd_any.specs.Tree.{no_fields, depth};
ghost use Rattle.yd_any.specs.AnyView.{any_tree, any_trees, any_fields};
ghost use Rattle.yd_any.specs.JsonView.{json_tree, json_trees, json_fields};
ghost use Rattle.yd_any.specs.Valid.{most_depth, is_valid_any, is_valid_json};
ghost use Rattle.yd_any.specs.Carried.{is_carried, are_carried, fields_are_carried};
ghost use Rattle.yd_any.specs.Carried.{settled, settled_trees, settled_fields};
ghost use Rattle.yd_any.specs.Outcome.{carried, Gives};
ghost use Rattle.yd_any.specs.JsonMap.{map_fields};

use crate::any_value::{Any, AnyList, AnyPairs};
use crate::carried::is_carried;
use crate::fault::{JsonFault, NoMemory};
use crate::json_value::{Json, JsonFields, JsonList};
use crate::text::Text;
use std::alloc::Global;
use std::collections::BTreeMap;

/// The JSON value that carries an any-value: of equal keys the last one stands, and each object
/// has its keys in the order of their bytes. A value that is not carried is found first, also one
/// under an equal key that does not stand.
pub fn json_of_any(alloc: Global, a: &Any) -> Result<Json, JsonFault>
    requires { depth (any_tree a.now) ≤ most_depth }
    ensures answers { Gives (carried (any_tree a.now)) result }
    ensures valid { IfOk result (λ j. IsTrue (is_valid_json (json_tree j))) }
{
    if !is_carried(a) {
        return Err(JsonFault::NumberNotCarried);
    }
    let carried = carry(alloc, a)?;
    Ok(carried)
}

/// The JSON value of an any-value in which each value is carried.
#[cycle(carry)]
fn carry(alloc: Global, value: &Any) -> Result<Json, NoMemory>
    requires { IsTrue (is_carried (any_tree value.now)) }
    ensures { IfOk result (λ j. json_tree j ≡ settled (any_tree value.now)) }
{
    match value {
        Any::Null => Ok(Json::Null),
        Any::Flag(b) => Ok(Json::Flag(*b)),
        Any::Whole(n) => Ok(Json::Whole(*n as i32)),
        Any::Str(text) => Ok(Json::Str(text.copy()?)),
        Any::List(items) => Ok(Json::List(carry_list(alloc, items)?)),
        Any::Pairs(entries) => Ok(Json::Fields(carry_pairs(alloc, entries)?)),
        _ => unreachable!(),
    }
}

#[cycle(carry)]
fn carry_list(alloc: Global, items: &AnyList) -> Result<JsonList, NoMemory>
    requires { IsTrue (are_carried (any_trees items.now)) }
    ensures { IfOk result (λ j. json_trees j ≡ settled_trees (any_trees items.now)) }
{
    let mut carried = Vec::new(alloc);
    for item in &items.items {
        carried.push(carry(alloc, item)?)?;
    }
    Ok(JsonList { items: carried })
}

#[cycle(carry)]
fn carry_pairs(alloc: Global, entries: &AnyPairs) -> Result<JsonFields, NoMemory>
    requires { IsTrue (fields_are_carried (any_fields entries.now)) }
    ensures { IfOk result (λ j. json_fields j
        ≡ settled_fields no_fields (any_fields entries.now)) }
{
    let mut found = BTreeMap::new(alloc);
    for entry in &entries.items {
        let key = String::from_str(alloc, entry.0.as_str())?;
        drop(found.insert(key, carry(alloc, &entry.1)?)?);
    }
    let fields = in_order(alloc, found)?;
    Ok(fields)
}

/// The fields of a map, in its order.
fn in_order(alloc: Global, found: BTreeMap<String, Json>) -> Result<JsonFields, NoMemory>
    ensures { IfOk result (λ j. json_fields j ≡ map_fields found.entries) }
{
    let mut items = Vec::with_capacity(alloc, found.len())?;
    for (key, value) in found {
        items.push((Text::of_string(key)?, value))?;
    }
    Ok(JsonFields { items })
}

/// The any-value that is the JSON value.
pub fn any_of_json(alloc: Global, j: &Json) -> Result<Any, NoMemory>
    requires { IsTrue (is_valid_json (json_tree j.now)) }
    ensures same { IfOk result (λ a. any_tree a ≡ json_tree j.now) }
    ensures valid { IfOk result (λ a. IsTrue (is_valid_any (any_tree a))) }
{
    let raised = raise(alloc, j)?;
    Ok(raised)
}

#[cycle(raise)]
fn raise(alloc: Global, value: &Json) -> Result<Any, NoMemory>
    ensures { IfOk result (λ a. any_tree a ≡ json_tree value.now) }
{
    match value {
        Json::Null => Ok(Any::Null),
        Json::Flag(b) => Ok(Any::Flag(*b)),
        Json::Whole(n) => Ok(Any::Whole(i64::from(*n))),
        Json::Str(text) => Ok(Any::Str(text.copy()?)),
        Json::List(items) => Ok(Any::List(raise_list(alloc, items)?)),
        Json::Fields(entries) => Ok(Any::Pairs(raise_fields(alloc, entries)?)),
    }
}

#[cycle(raise)]
fn raise_list(alloc: Global, items: &JsonList) -> Result<AnyList, NoMemory>
    ensures { IfOk result (λ a. any_trees a ≡ json_trees items.now) }
{
    let mut raised = Vec::new(alloc);
    for item in &items.items {
        raised.push(raise(alloc, item)?)?;
    }
    Ok(AnyList { items: raised })
}

#[cycle(raise)]
fn raise_fields(alloc: Global, entries: &JsonFields) -> Result<AnyPairs, NoMemory>
    ensures { IfOk result (λ a. any_fields a ≡ json_fields entries.now) }
{
    let mut raised = Vec::new(alloc);
    for entry in &entries.items {
        raised.push((entry.0.copy()?, raise(alloc, &entry.1)?))?;
    }
    Ok(AnyPairs { items: raised })
}
