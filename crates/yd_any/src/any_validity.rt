//! Whether an any-value is valid.

ghost use Rattle.std.specs.Prelude.{◌≡◌, nat_le};
ghost use Rattle.yd_any.specs.Tree.{depth, depth_of_trees, depth_of_fields};
ghost use Rattle.yd_any.specs.AnyView.{any_tree, any_trees, any_fields};
ghost use Rattle.yd_any.specs.Valid.{is_in_range, are_in_range, fields_are_in_range, is_valid_any};

use crate::any_value::{Any, AnyList, AnyPairs};

/// How deep lists and objects may nest.
pub const MOST_DEPTH: u64 = 100;

/// The greatest magnitude of a whole number, up to which JavaScript counts exactly.
const MOST_WHOLE: u64 = (1 << 53) - 1;

impl Any {
    /// Whether the value is valid: it nests at most 100 deep, and its whole numbers are of
    /// magnitude at most 2^53-1.
    pub fn is_valid(&self) -> bool
        ensures { result ≡ is_valid_any (any_tree self.now) }
    {
        is_within(self, MOST_DEPTH) && is_in_range(self)
    }
}

/// Whether the value nests at most so deep.
#[cycle(depth)]
pub fn is_within(value: &Any, most: u64) -> bool
    ensures { result ≡ nat_le (depth (any_tree value.now)) most }
{
    match value {
        Any::List(items) => most > 0 && are_within(items, most - 1),
        Any::Pairs(entries) => most > 0 && pairs_are_within(entries, most - 1),
        _ => true,
    }
}

#[cycle(depth)]
fn are_within(items: &AnyList, most: u64) -> bool
    ensures { result ≡ nat_le (depth_of_trees (any_trees items.now)) most }
{
    for item in &items.items {
        if !is_within(item, most) {
            return false;
        }
    }
    true
}

#[cycle(depth)]
fn pairs_are_within(entries: &AnyPairs, most: u64) -> bool
    ensures { result ≡ nat_le (depth_of_fields (any_fields entries.now)) most }
{
    for (_, item) in &entries.items {
        if !is_within(item, most) {
            return false;
        }
    }
    true
}

/// Whether each whole number keeps its range.
#[cycle(range)]
fn is_in_range(value: &Any) -> bool
    ensures { result ≡ is_in_range (any_tree value.now) }
{
    match value {
        Any::Whole(n) => n.unsigned_abs() <= MOST_WHOLE,
        Any::List(items) => are_in_range(items),
        Any::Pairs(entries) => pairs_are_in_range(entries),
        _ => true,
    }
}

#[cycle(range)]
fn are_in_range(items: &AnyList) -> bool
    ensures { result ≡ are_in_range (any_trees items.now) }
{
    for item in &items.items {
        if !is_in_range(item) {
            return false;
        }
    }
    true
}

#[cycle(range)]
fn pairs_are_in_range(entries: &AnyPairs) -> bool
    ensures { result ≡ fields_are_in_range (any_fields entries.now) }
{
    for (_, item) in &entries.items {
        if !is_in_range(item) {
            return false;
        }
    }
    true
}
