//! When two JSON values are the same.

ghost use Rattle.std.specs.Prelude.{◌≡◌};
ghost use Rattle.std.specs.Str.{bytes_eq};
ghost use Rattle.yd_any.specs.JsonView.{json_tree, json_trees, json_fields, items_trees, entries_fields};
ghost use Rattle.yd_any.specs.Tree.{flag, list, null, pairs, str, whole};
ghost use Rattle.yd_any.specs.Same.{same_tree, same_trees, same_fields};

use crate::json_value::{Json, JsonFields, JsonList};
use crate::text::Text;

/// The two values are the same, in time of the smaller one. It takes no memory.
pub fn is_same_json(a: &Json, b: &Json) -> bool
    ensures { result ≡ same_tree (json_tree a.now) (json_tree b.now) }
{
    is_same(a, b)
}

#[cycle(same)]
fn is_same(a: &Json, b: &Json) -> bool
    ensures { result ≡ same_tree (json_tree a.now) (json_tree b.now) }
{
    match a {
        Json::Null => is_null(b),
        Json::Flag(x) => is_flag(b, *x),
        Json::Whole(n) => is_whole(b, *n),
        Json::Str(text) => is_str(b, text),
        Json::List(items) => is_list(b, items),
        Json::Fields(entries) => is_fields(b, entries),
    }
}

fn is_null(value: &Json) -> bool
    ensures { result ≡ same_tree null (json_tree value.now) }
{
    match value {
        Json::Null => true,
        _ => false,
    }
}

fn is_flag(value: &Json, x: bool) -> bool
    ensures { result ≡ same_tree (flag x) (json_tree value.now) }
{
    match value {
        Json::Flag(y) => x == *y,
        _ => false,
    }
}

fn is_whole(value: &Json, n: i32) -> bool
    ensures { result ≡ same_tree (whole n) (json_tree value.now) }
{
    match value {
        Json::Whole(m) => n == *m,
        _ => false,
    }
}

fn is_str(value: &Json, text: &Text) -> bool
    ensures { result ≡ same_tree (str text.now) (json_tree value.now) }
{
    match value {
        Json::Str(other) => text.as_str() == other.as_str(),
        _ => false,
    }
}

#[cycle(same)]
fn is_list(value: &Json, items: &JsonList) -> bool
    ensures { result ≡ same_tree (list (json_trees items.now)) (json_tree value.now) }
{
    match value {
        Json::List(others) => are_same(items.as_slice(), others.as_slice()),
        _ => false,
    }
}

#[cycle(same)]
fn are_same(items: &[Json], others: &[Json]) -> bool
    ensures { result ≡ same_trees (items_trees items.now) (items_trees others.now) }
{
    for i in 0..items.len() {
        if i >= others.len() {
            return false;
        }
        if !is_same(&items[i], &others[i]) {
            return false;
        }
    }
    others.len() <= items.len()
}

/// The two keys are the same.
fn is_key(key: &Text, other: &Text) -> bool
    ensures { result ≡ bytes_eq key.now other.now }
{
    key.as_str() == other.as_str()
}

#[cycle(same)]
fn is_fields(value: &Json, entries: &JsonFields) -> bool
    ensures { result ≡ same_tree (pairs (json_fields entries.now)) (json_tree value.now) }
{
    match value {
        Json::Fields(others) => fields_are_same(entries.as_slice(), others.as_slice()),
        _ => false,
    }
}

#[cycle(same)]
fn fields_are_same(entries: &[(Text, Json)], others: &[(Text, Json)]) -> bool
    ensures { result ≡ same_fields (entries_fields entries.now) (entries_fields others.now) }
{
    for i in 0..entries.len() {
        if i >= others.len() {
            return false;
        }
        let entry = &entries[i];
        let other = &others[i];
        if !is_key(&entry.0, &other.0) || !is_same(&entry.1, &other.1) {
            return false;
        }
    }
    others.len() <= entries.len()
}
