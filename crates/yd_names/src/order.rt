//! The order of names, in which a bisection finds them.

ghost use Rattle.std.specs.Prelude.{◌≡◌, Some, None};
ghost use Rattle.yd_names.specs.Order.{key_cmp, list_cmp, parent_cmp};
ghost use Rattle.yd_ops.specs.declared.lists.Parent.TheVariants.{Root, Item};

use std::cmp::Ordering;
use yd_any::Text;
use yd_ids::Id;
use yd_ops::{List, Parent};

/// Which of two lists is the first: the parents tell, and then the keys. It takes time with the lengths
/// of the names.
pub(crate) fn compare_lists(a: &List, b: &List) -> Ordering
    ensures { result ≡ list_cmp a.now b.now }
{
    match compare_parents(&a.parent, &b.parent) {
        Ordering::Less => Ordering::Less,
        Ordering::Equal => compare_keys(&a.key, &b.key),
        Ordering::Greater => Ordering::Greater,
    }
}

/// Which of two parents is the first: roots stand by their names, and behind them items by their ids.
pub(crate) fn compare_parents(a: &Parent, b: &Parent) -> Ordering
    ensures { result ≡ parent_cmp a.now b.now }
{
    match a {
        Parent::Root(name) => compare_root(name, b),
        Parent::Item(id) => compare_item(*id, b),
    }
}

/// Whether the root with a name is the first, or a parent.
fn compare_root(name: &Text, parent: &Parent) -> Ordering
    ensures { result ≡ parent_cmp (Root name.now) parent.now }
{
    match parent {
        Parent::Root(other) => name.as_str().cmp(other.as_str()),
        Parent::Item(_) => Ordering::Less,
    }
}

/// Whether the item with an id is the first, or a parent.
fn compare_item(id: Id, parent: &Parent) -> Ordering
    ensures { result ≡ parent_cmp (Item id) parent.now }
{
    match parent {
        Parent::Root(_) => Ordering::Greater,
        Parent::Item(other) => compare_ids(id, *other),
    }
}

/// Which of two items is the first.
fn compare_ids(id: Id, other: Id) -> Ordering
    ensures { result ≡ parent_cmp (Item id) (Item other) }
{
    match id.client.0.cmp(&other.client.0) {
        Ordering::Less => Ordering::Less,
        Ordering::Equal => id.clock.cmp(&other.clock),
        Ordering::Greater => Ordering::Greater,
    }
}

/// Which of two keys is the first. None is before all others.
fn compare_keys(a: &Option<Text>, b: &Option<Text>) -> Ordering
    ensures { result ≡ key_cmp a.now b.now }
{
    match a {
        None => compare_none(b),
        Some(key) => compare_key(key, b),
    }
}

/// Whether no key is the first, or another.
fn compare_none(b: &Option<Text>) -> Ordering
    ensures { result ≡ key_cmp None b.now }
{
    match b {
        None => Ordering::Equal,
        Some(_) => Ordering::Less,
    }
}

/// Whether a key is the first, or another.
fn compare_key(key: &Text, b: &Option<Text>) -> Ordering
    ensures { result ≡ key_cmp (Some key.now) b.now }
{
    match b {
        None => Ordering::Greater,
        Some(other) => key.as_str().cmp(other.as_str()),
    }
}
