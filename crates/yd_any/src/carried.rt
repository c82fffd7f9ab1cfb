//! Whether JSON values carry what an any-value holds.

ghost use Rattle.std.specs.Prelude.{◌≡◌};
ghost use Rattle.yd_any.specs.AnyView.{any_tree, any_trees, any_fields};
ghost use Rattle.yd_any.specs.Carried.{is_carried, are_carried, fields_are_carried};

use crate::any_value::{Any, AnyList, AnyPairs};
use crate::json_validity::is_small;

/// Whether JSON values carry each value inside.
#[cycle(carried)]
pub fn is_carried(value: &Any) -> bool
    ensures { result ≡ is_carried (any_tree value.now) }
{
    match value {
        Any::Null | Any::Flag(_) | Any::Str(_) => true,
        Any::Whole(n) => is_small(*n),
        Any::List(items) => are_carried(items),
        Any::Pairs(entries) => pairs_are_carried(entries),
        _ => false,
    }
}

#[cycle(carried)]
fn are_carried(items: &AnyList) -> bool
    ensures { result ≡ are_carried (any_trees items.now) }
{
    for item in &items.items {
        if !is_carried(item) {
            return false;
        }
    }
    true
}

#[cycle(carried)]
fn pairs_are_carried(entries: &AnyPairs) -> bool
    ensures { result ≡ fields_are_carried (any_fields entries.now) }
{
    for (_, item) in &entries.items {
        if !is_carried(item) {
            return false;
        }
    }
    true
}
