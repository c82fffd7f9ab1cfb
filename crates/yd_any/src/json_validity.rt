//! Whether a JSON value is valid.

ghost use Rattle.std.specs.Prelude.{◌≡◌, nat_le, option_map, None};
ghost use Rattle.yd_any.specs.Tree.{depth, depth_of_trees, depth_of_fields};
ghost use Rattle.yd_any.specs.JsonView.{json_tree, json_trees, json_fields};
ghost use Rattle.yd_any.specs.Valid.{is_small, is_above, is_valid_json};
ghost use Rattle.yd_any.specs.Valid.{is_json, are_json, fields_are_json};

use crate::any_validity::MOST_DEPTH;
use crate::json_value::{Json, JsonFields, JsonList};
use std::cmp::Ordering;

/// The greatest magnitude of a number that JSON values carry.
const MOST_SMALL: u64 = (1 << 31) - 1;

impl Json {
    /// Whether the value is valid: it nests at most 100 deep, its numbers are of magnitude at most
    /// 2^31-1, and the keys of each object are distinct and in the order of their bytes.
    pub fn is_valid(&self) -> bool
        ensures { result ≡ is_valid_json (json_tree self.now) }
    {
        is_within(self, MOST_DEPTH) && is_json(self)
    }
}

/// Whether JSON values carry the number.
pub fn is_small(n: i64) -> bool
    ensures { result ≡ is_small n }
{
    n.unsigned_abs() <= MOST_SMALL
}

/// Whether the key is above the one before it, if there is one.
pub fn is_above(last: Option<&str>, key: &str) -> bool
    ensures { result ≡ is_above (option_map (λ l. l.now) last.entry) key.now }
{
    match last {
        None => true,
        Some(low) => low.cmp(key) == Ordering::Less,
    }
}

#[cycle(depth)]
fn is_within(value: &Json, most: u64) -> bool
    ensures { result ≡ nat_le (depth (json_tree value.now)) most }
{
    match value {
        Json::List(items) => most > 0 && are_within(items, most - 1),
        Json::Fields(entries) => most > 0 && fields_are_within(entries, most - 1),
        _ => true,
    }
}

#[cycle(depth)]
fn are_within(items: &JsonList, most: u64) -> bool
    ensures { result ≡ nat_le (depth_of_trees (json_trees items.now)) most }
{
    for item in &items.items {
        if !is_within(item, most) {
            return false;
        }
    }
    true
}

#[cycle(depth)]
fn fields_are_within(entries: &JsonFields, most: u64) -> bool
    ensures { result ≡ nat_le (depth_of_fields (json_fields entries.now)) most }
{
    for entry in &entries.items {
        if !is_within(&entry.1, most) {
            return false;
        }
    }
    true
}

#[cycle(shape)]
fn is_json(value: &Json) -> bool
    ensures { result ≡ is_json (json_tree value.now) }
{
    match value {
        Json::Whole(n) => is_small(i64::from(*n)),
        Json::List(items) => are_json(items),
        Json::Fields(entries) => fields_are_json(entries),
        _ => true,
    }
}

#[cycle(shape)]
fn are_json(items: &JsonList) -> bool
    ensures { result ≡ are_json (json_trees items.now) }
{
    for item in &items.items {
        if !is_json(item) {
            return false;
        }
    }
    true
}

#[cycle(shape)]
fn fields_are_json(entries: &JsonFields) -> bool
    ensures { result ≡ fields_are_json None (json_fields entries.now) }
{
    let mut last = None;
    for entry in &entries.items {
        let key = entry.0.as_str();
        if !is_above(last, key) || !is_json(&entry.1) {
            return false;
        }
        last = Some(key);
    }
    true
}
