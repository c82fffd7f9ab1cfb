//! How deep a value of `serde_json` nests, and whether JSON values carry its numbers.

ghost use Rattle.std.specs.Prelude.{◌≡◌, nat_le};
ghost use Rattle.serde_json.specs.View.{view, number_view, items_view, members_view};
ghost use Rattle.yd_any.specs.Tree.{depth, depth_of_trees, depth_of_fields};
ghost use Rattle.yd_any.specs.Carried.{is_carried, are_carried, fields_are_carried};
ghost use Rattle.yd_any.specs.DataTree.{number_tree, data_tree, data_trees, data_fields};

use crate::json_validity::is_small;
use serde_json::{Map, Number, Value};

/// Whether the value nests at most so deep.
#[cycle(depth)]
pub fn is_within(value: &Value, most: u64) -> bool
    ensures { result ≡ nat_le (depth (data_tree (view value.now))) most }
{
    match value {
        Value::Array(items) => most > 0 && are_within(items, most - 1),
        Value::Object(members) => most > 0 && members_are_within(members, most - 1),
        _ => true,
    }
}

#[cycle(depth)]
fn are_within(items: &Vec<Value>, most: u64) -> bool
    ensures { result ≡ nat_le (depth_of_trees (data_trees (items_view items.now.items))) most }
{
    for item in items {
        if !is_within(item, most) {
            return false;
        }
    }
    true
}

#[cycle(depth)]
fn members_are_within(members: &Map<String, Value>, most: u64) -> bool
    ensures { result
        ≡ nat_le (depth_of_fields (data_fields (members_view members.now.entries))) most }
{
    for (_, member) in members.iter() {
        if !is_within(member, most) {
            return false;
        }
    }
    true
}

/// Whether JSON values carry each number inside.
#[cycle(carried)]
pub fn is_carried(value: &Value) -> bool
    ensures { result ≡ is_carried (data_tree (view value.now)) }
{
    match value {
        Value::Number(number) => number_is_carried(number),
        Value::Array(items) => are_carried(items),
        Value::Object(members) => members_are_carried(members),
        _ => true,
    }
}

#[cycle(carried)]
fn are_carried(items: &Vec<Value>) -> bool
    ensures { result ≡ are_carried (data_trees (items_view items.now.items)) }
{
    for item in items {
        if !is_carried(item) {
            return false;
        }
    }
    true
}

#[cycle(carried)]
fn members_are_carried(members: &Map<String, Value>) -> bool
    ensures { result ≡ fields_are_carried (data_fields (members_view members.now.entries)) }
{
    for (_, member) in members.iter() {
        if !is_carried(member) {
            return false;
        }
    }
    true
}

fn number_is_carried(number: &Number) -> bool
    ensures { result ≡ is_carried (number_tree (number_view number.now)) }
{
    match number.as_i64() {
        Some(n) => is_small(n),
        None => false,
    }
}
