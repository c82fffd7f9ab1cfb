//! When the names of two lists are one.

ghost use Rattle.std.specs.Prelude.{◌≡◌};
ghost use Rattle.yd_meaning.specs.Names.{same_list, same_parent, same_key};
ghost use Rattle.std.specs.Prelude.{Some};
ghost use Rattle.yd_ops.specs.declared.lists.Parent.TheVariants.{Root, Item};

use yd_any::Text;
use yd_ids::Id;
use yd_ops::{List, Parent};

/// Two lists are one: their parents are, and their keys. It takes no memory, and time with the
/// lengths of the names.
pub fn is_same_list(a: &List, b: &List) -> bool
    ensures { result ≡ same_list a.now b.now }
{
    is_same_parent(&a.parent, &b.parent) && is_same_key(&a.key, &b.key)
}

/// Two parents are one. It takes no memory, and time with the length of a root's name.
pub fn is_same_parent(a: &Parent, b: &Parent) -> bool
    ensures { result ≡ same_parent a.now b.now }
{
    match a {
        Parent::Root(name) => is_root(b, name),
        Parent::Item(id) => is_item(b, *id),
    }
}

/// The parent is the root with this name.
fn is_root(parent: &Parent, name: &Text) -> bool
    ensures { result ≡ same_parent (Root name.now) parent.now }
{
    match parent {
        Parent::Root(other) => name.as_str() == other.as_str(),
        Parent::Item(_) => false,
    }
}

/// The parent is the item with this id.
fn is_item(parent: &Parent, id: Id) -> bool
    ensures { result ≡ same_parent (Item id) parent.now }
{
    match parent {
        Parent::Root(_) => false,
        Parent::Item(other) => id == *other,
    }
}

/// Two keys are one, or both are absent.
fn is_same_key(a: &Option<Text>, b: &Option<Text>) -> bool
    ensures { result ≡ same_key a.now b.now }
{
    match a {
        None => b.is_none(),
        Some(key) => is_key(b, key),
    }
}

/// It is this key.
fn is_key(a: &Option<Text>, key: &Text) -> bool
    ensures { result ≡ same_key (Some key.now) a.now }
{
    match a {
        None => false,
        Some(other) => key.as_str() == other.as_str(),
    }
}
