//! Shown values of any-values.

ghost use Rattle.std.specs.Prelude.{◌≡◌, IfOk};
ghost use Rattle.yd_any.specs.AnyView.{any_tree, any_trees, any_fields};
ghost use Rattle.yd_any.specs.AnyView.{items_trees as items_of, entries_fields as entries_of};
ghost use Rattle.yd_value.specs.View.{shown_tree, shown_trees, shown_fields};

use crate::fault::NoMemory;
use crate::shown::{Shown, ShownFields, ShownList};
use std::alloc::Global;
use yd_any::{Any, AnyList, AnyPairs, Text};

impl Shown {
    /// The shown value of an any-value, in memory of its own.
    pub fn of_any(alloc: Global, value: &Any) -> Result<Shown, NoMemory>
        ensures { IfOk result (λ shown. shown_tree shown ≡ any_tree value.now) }
    {
        let shown = show(alloc, value)?;
        Ok(shown)
    }
}

#[cycle(show)]
fn show(alloc: Global, value: &Any) -> Result<Shown, NoMemory>
    ensures { IfOk result (λ shown. shown_tree shown ≡ any_tree value.now) }
{
    match value {
        Any::Undefined => Ok(Shown::Undefined),
        Any::Null => Ok(Shown::Null),
        Any::Flag(b) => Ok(Shown::Flag(*b)),
        Any::Whole(n) => Ok(Shown::Whole(*n)),
        Any::Raw4(bytes) => Ok(Shown::Raw4(*bytes)),
        Any::Raw8(bytes) => Ok(Shown::Raw8(*bytes)),
        Any::Big(n) => Ok(Shown::Big(*n)),
        Any::Str(text) => Ok(Shown::Str(text.copy()?)),
        Any::List(items) => Ok(Shown::List(show_list(alloc, items)?)),
        Any::Pairs(entries) => Ok(Shown::Fields(show_pairs(alloc, entries)?)),
        Any::Blob(bytes) => Ok(Shown::Blob(bytes.copy()?)),
    }
}

#[cycle(show)]
fn show_list(alloc: Global, items: &AnyList) -> Result<ShownList, NoMemory>
    ensures { IfOk result (λ shown. shown_trees shown ≡ any_trees items.now) }
{
    let shown = show_items(alloc, items.as_slice())?;
    Ok(shown)
}

#[cycle(show)]
fn show_items(alloc: Global, items: &[Any]) -> Result<ShownList, NoMemory>
    ensures { IfOk result (λ shown. shown_trees shown ≡ items_of items.now) }
{
    let mut shown = Vec::new(alloc);
    for item in items {
        shown.push(show(alloc, item)?)?;
    }
    Ok(ShownList { items: shown })
}

#[cycle(show)]
fn show_pairs(alloc: Global, entries: &AnyPairs) -> Result<ShownFields, NoMemory>
    ensures { IfOk result (λ shown. shown_fields shown ≡ any_fields entries.now) }
{
    let shown = show_entries(alloc, entries.as_slice())?;
    Ok(shown)
}

#[cycle(show)]
fn show_entries(alloc: Global, entries: &[(Text, Any)]) -> Result<ShownFields, NoMemory>
    ensures { IfOk result (λ shown. shown_fields shown ≡ entries_of entries.now) }
{
    let mut shown = Vec::new(alloc);
    for (key, item) in entries {
        shown.push((key.copy()?, show(alloc, item)?))?;
    }
    Ok(ShownFields { items: shown })
}
