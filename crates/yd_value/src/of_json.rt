//! Shown values of JSON values.

ghost use Rattle.std.specs.Prelude.{◌≡◌, IfOk};
ghost use Rattle.yd_any.specs.JsonView.{json_tree, json_trees, json_fields};
ghost use Rattle.yd_any.specs.JsonView.{items_trees as items_of, entries_fields as entries_of};
ghost use Rattle.yd_value.specs.View.{shown_tree, shown_trees, shown_fields};

use crate::fault::NoMemory;
use crate::shown::{Shown, ShownFields, ShownList};
use std::alloc::Global;
use yd_any::{Json, JsonFields, JsonList, Text};

impl Shown {
    /// The shown value of a JSON value, in memory of its own.
    pub fn of_json(alloc: Global, value: &Json) -> Result<Shown, NoMemory>
        ensures { IfOk result (λ shown. shown_tree shown ≡ json_tree value.now) }
    {
        let shown = show(alloc, value)?;
        Ok(shown)
    }
}

#[cycle(show)]
fn show(alloc: Global, value: &Json) -> Result<Shown, NoMemory>
    ensures { IfOk result (λ shown. shown_tree shown ≡ json_tree value.now) }
{
    match value {
        Json::Null => Ok(Shown::Null),
        Json::Flag(b) => Ok(Shown::Flag(*b)),
        Json::Whole(n) => Ok(Shown::Whole(i64::from(*n))),
        Json::Str(text) => Ok(Shown::Str(text.copy()?)),
        Json::List(items) => Ok(Shown::List(show_list(alloc, items)?)),
        Json::Fields(entries) => Ok(Shown::Fields(show_fields(alloc, entries)?)),
    }
}

#[cycle(show)]
fn show_list(alloc: Global, items: &JsonList) -> Result<ShownList, NoMemory>
    ensures { IfOk result (λ shown. shown_trees shown ≡ json_trees items.now) }
{
    let shown = show_items(alloc, items.as_slice())?;
    Ok(shown)
}

#[cycle(show)]
fn show_items(alloc: Global, items: &[Json]) -> Result<ShownList, NoMemory>
    ensures { IfOk result (λ shown. shown_trees shown ≡ items_of items.now) }
{
    let mut shown = Vec::new(alloc);
    for item in items {
        shown.push(show(alloc, item)?)?;
    }
    Ok(ShownList { items: shown })
}

#[cycle(show)]
fn show_fields(alloc: Global, entries: &JsonFields) -> Result<ShownFields, NoMemory>
    ensures { IfOk result (λ shown. shown_fields shown ≡ json_fields entries.now) }
{
    let shown = show_entries(alloc, entries.as_slice())?;
    Ok(shown)
}

#[cycle(show)]
fn show_entries(alloc: Global, entries: &[(Text, Json)]) -> Result<ShownFields, NoMemory>
    ensures { IfOk result (λ shown. shown_fields shown ≡ entries_of entries.now) }
{
    let mut shown = Vec::new(alloc);
    for (key, item) in entries {
        shown.push((key.copy()?, show(alloc, item)?))?;
    }
    Ok(ShownFields { items: shown })
}
