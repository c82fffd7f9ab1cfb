//! When two any-values are the same.

ghost use Rattle.std.specs.Prelude.{◌≡◌};
ghost use Rattle.std.specs.Str.{bytes_eq};
ghost use Rattle.yd_any.specs.AnyView.{any_tree, any_trees, any_fields, items_trees, entries_fields};
ghost use Rattle.yd_any.specs.Tree.{big, blob, flag, list, null, pairs, raw4, raw8, str, undefined, whole};
ghost use Rattle.yd_any.specs.Same.{same_tree, same_trees, same_fields};

use crate::any_value::{Any, AnyList, AnyPairs};
use crate::blob::Blob;
use crate::text::Text;

/// The two values are the same, in time of the smaller one. It takes no memory.
pub fn is_same_any(a: &Any, b: &Any) -> bool
    ensures { result ≡ same_tree (any_tree a.now) (any_tree b.now) }
{
    is_same(a, b)
}

#[cycle(same)]
fn is_same(a: &Any, b: &Any) -> bool
    ensures { result ≡ same_tree (any_tree a.now) (any_tree b.now) }
{
    match a {
        Any::Undefined => is_undefined(b),
        Any::Null => is_null(b),
        Any::Flag(x) => is_flag(b, *x),
        Any::Whole(n) => is_whole(b, *n),
        Any::Raw4(bytes) => is_raw4(b, bytes),
        Any::Raw8(bytes) => is_raw8(b, bytes),
        Any::Big(n) => is_big(b, *n),
        Any::Str(text) => is_str(b, text),
        Any::List(items) => is_list(b, items),
        Any::Pairs(entries) => is_pairs(b, entries),
        Any::Blob(bytes) => is_blob(b, bytes),
    }
}

fn is_undefined(value: &Any) -> bool
    ensures { result ≡ same_tree undefined (any_tree value.now) }
{
    match value {
        Any::Undefined => true,
        _ => false,
    }
}

fn is_null(value: &Any) -> bool
    ensures { result ≡ same_tree null (any_tree value.now) }
{
    match value {
        Any::Null => true,
        _ => false,
    }
}

fn is_flag(value: &Any, x: bool) -> bool
    ensures { result ≡ same_tree (flag x) (any_tree value.now) }
{
    match value {
        Any::Flag(y) => x == *y,
        _ => false,
    }
}

fn is_whole(value: &Any, n: i64) -> bool
    ensures { result ≡ same_tree (whole n) (any_tree value.now) }
{
    match value {
        Any::Whole(m) => n == *m,
        _ => false,
    }
}

fn is_raw4(value: &Any, bytes: &[u8; 4]) -> bool
    ensures { result ≡ same_tree (raw4 bytes.now) (any_tree value.now) }
{
    match value {
        Any::Raw4(other) => bytes == other,
        _ => false,
    }
}

fn is_raw8(value: &Any, bytes: &[u8; 8]) -> bool
    ensures { result ≡ same_tree (raw8 bytes.now) (any_tree value.now) }
{
    match value {
        Any::Raw8(other) => bytes == other,
        _ => false,
    }
}

fn is_big(value: &Any, n: i64) -> bool
    ensures { result ≡ same_tree (big n) (any_tree value.now) }
{
    match value {
        Any::Big(m) => n == *m,
        _ => false,
    }
}

fn is_str(value: &Any, text: &Text) -> bool
    ensures { result ≡ same_tree (str text.now) (any_tree value.now) }
{
    match value {
        Any::Str(other) => text.as_str() == other.as_str(),
        _ => false,
    }
}

fn is_blob(value: &Any, bytes: &Blob) -> bool
    ensures { result ≡ same_tree (blob bytes.now) (any_tree value.now) }
{
    match value {
        Any::Blob(other) => bytes.as_slice() == other.as_slice(),
        _ => false,
    }
}

#[cycle(same)]
fn is_list(value: &Any, items: &AnyList) -> bool
    ensures { result ≡ same_tree (list (any_trees items.now)) (any_tree value.now) }
{
    match value {
        Any::List(others) => are_same(items.as_slice(), others.as_slice()),
        _ => false,
    }
}

#[cycle(same)]
fn are_same(items: &[Any], others: &[Any]) -> bool
    ensures { result ≡ same_trees (items_trees items.now) (items_trees others.now) }
{
    for i in 0..items.len() {
        if i >= others.len() {
            return false;
        }
        if !is_same(&items[i], &others[i]) {
            return false;
        }
    }
    others.len() <= items.len()
}

/// The two keys are the same.
fn is_key(key: &Text, other: &Text) -> bool
    ensures { result ≡ bytes_eq key.now other.now }
{
    key.as_str() == other.as_str()
}

#[cycle(same)]
fn is_pairs(value: &Any, entries: &AnyPairs) -> bool
    ensures { result ≡ same_tree (pairs (any_fields entries.now)) (any_tree value.now) }
{
    match value {
        Any::Pairs(others) => pairs_are_same(entries.as_slice(), others.as_slice()),
        _ => false,
    }
}

#[cycle(same)]
fn pairs_are_same(entries: &[(Text, Any)], others: &[(Text, Any)]) -> bool
    ensures { result ≡ same_fields (entries_fields entries.now) (entries_fields others.now) }
{
    for i in 0..entries.len() {
        if i >= others.len() {
            return false;
        }
        let entry = &entries[i];
        let other = &others[i];
        if !is_key(&entry.0, &other.0) || !is_same(&entry.1, &other.1) {
            return false;
        }
    }
    others.len() <= entries.len()
}
