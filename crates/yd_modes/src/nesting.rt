//! Types inside one another: each is shown by its kind, as deep as is asked.

ghost use Rattle.std.specs.Prelude.{◌≡◌, ◌<◌, ◌&&◌, not, false, codes, IfOk, OnOk, map, option_map};
ghost use Rattle.yd_any.specs.Tree.{field, no_fields, str};
ghost use Rattle.yd_doc.specs.Kept.{own_document};
ghost use Rattle.yd_ops.specs.Operation.{nested_type};
ghost use Rattle.yd_shown.specs.Seen.{seen_units};
ghost use Rattle.yd_shown.specs.Shown.{fields_under, map_fields, shown_delta, shown_list, shown_tree as shown_element, shown_type, text_value, value_under, value_within};
ghost use Rattle.yd_state.specs.Lent.{units_left, units_of_view, IsWithin};
ghost use Rattle.yd_value.specs.View.{shown_fields, shown_tree, shown_trees};
ghost use Rattle.yd_modes.specs.Roles.{Delta, Values, are_counted, bare, live_lent, pieces_by, whole_units};
ghost use Rattle.yd_modes.specs.Gathering.{made, told, told_values, Gathers, IsSettled};
ghost use Rattle.yd_modes.specs.Listed.{Lists};
ghost use Rattle.yd_doc.specs.Last.{unit_of_view};

use crate::fault::NoMemory;
use crate::gathering::Gathering;
use crate::inserts::{delta_of, push_value};
use crate::listed::Listed;
use crate::lists::{key_list, own_list};
use crate::objects::{element_of, hook_of, too_deep};
use crate::piece::Piece;
use crate::plain::plain_at;
use crate::taking::take_piece;
use crate::texts::text_of;
use crate::values::list_piece;
use std::alloc::Global;
use yd_any::Text;
use yd_doc::{ListView, Replica, RunView};
use yd_ids::Id;
use yd_ops::{Content, Kind, List, Parent};
use yd_value::{Shown, ShownFields, ShownList};
use yd_view::text;

/// The text of a parent, as a value.
pub fn show_text(alloc: Global, replica: &Replica, parent: &Parent) -> Result<Shown, NoMemory>
    ensures { IfOk result (λ shown. shown_tree shown
        ≡ text_value (own_document replica.now) parent.now) }
{
    let list = own_list(parent)?;
    let units = text(alloc, replica, &list)?;
    let shown = text_of(alloc, units)?;
    Ok(shown)
}

/// A nested type, with at most so many types inside one another.
#[cycle(show)]
fn show_type(
    alloc: Global,
    replica: &Replica,
    parent: &Parent,
    kind: &Kind,
    most: u64,
) -> Result<Shown, NoMemory>
    ensures { IfOk result (λ shown. shown_tree shown
        ≡ shown_type (value_within most (own_document replica.now)) (own_document replica.now)
        parent.now kind.now) }
{
    match kind {
        Kind::Text => show_text(alloc, replica, parent),
        Kind::ElementText => show_delta(alloc, replica, parent, most),
        Kind::Array => show_list(alloc, replica, parent, most),
        Kind::Fragment => show_list(alloc, replica, parent, most),
        Kind::Map => Ok(Shown::Fields(show_map(alloc, replica, parent, most)?)),
        Kind::Hook(name) => {
            let attributes = show_map(alloc, replica, parent, most)?;
            hook_of(alloc, attributes, name)
        }
        Kind::Element(name) => show_element(alloc, replica, parent, name, most),
    }
}

/// An element: its attributes and its children, whose lists are found together, and its name.
#[cycle(show)]
fn show_element(
    alloc: Global,
    replica: &Replica,
    parent: &Parent,
    name: &Text,
    most: u64,
) -> Result<Shown, NoMemory>
    ensures { IfOk result (λ shown. shown_tree shown
        ≡ shown_element (value_within most (own_document replica.now)) (own_document replica.now)
        parent.now (field (codes "name") (str name.now) no_fields)) }
{
    let lists = replica.lists_of(alloc, parent)?;
    let attributes = show_keys(alloc, replica, parent, lists.keys, most)?;
    let children = gather_values(alloc, replica, lists.own, most)?;
    element_of(alloc, attributes, Shown::List(children), name)
}

/// The type that a unit holds, where it does not lie too deep.
#[cycle(show)]
fn show_nested(
    alloc: Global,
    replica: &Replica,
    id: Id,
    kind: &Kind,
    most: u64,
) -> Result<Shown, NoMemory>
    ensures { IfOk result (λ shown. shown_tree shown
        ≡ value_within most (own_document replica.now) (bare id (nested_type kind.now))) }
{
    if most == 0 {
        return too_deep(alloc);
    }
    let parent = Parent::Item(id);
    show_type(alloc, replica, &parent, kind, most - 1)
}

/// The delta of a parent.
#[cycle(show)]
pub fn show_delta(
    alloc: Global,
    replica: &Replica,
    parent: &Parent,
    most: u64,
) -> Result<Shown, NoMemory>
    ensures { IfOk result (λ shown. shown_tree shown
        ≡ shown_delta (value_within most (own_document replica.now))
        (own_document replica.now) parent.now) }
{
    let list = own_list(parent)?;
    let pieces = gather(alloc, replica, &list, most)?;
    delta_of(alloc, pieces)
}

/// The list of a parent.
#[cycle(show)]
pub fn show_list(
    alloc: Global,
    replica: &Replica,
    parent: &Parent,
    most: u64,
) -> Result<Shown, NoMemory>
    ensures { IfOk result (λ shown. shown_tree shown
        ≡ shown_list (value_within most (own_document replica.now))
        (own_document replica.now) parent.now) }
{
    let list = own_list(parent)?;
    let values = gather_values(alloc, replica, replica.list(&list), most)?;
    Ok(Shown::List(values))
}

/// The values of the units that are still to come: they are gone along once.
#[cycle(show)]
pub fn gather_values(
    alloc: Global,
    replica: &Replica,
    mut view: ListView<'_>,
    most: u64,
) -> Result<ShownList, NoMemory>
    ensures { IfOk result (λ values. shown_trees values
        ≡ told_values (map told (pieces_by Values (value_within most (own_document replica.now))
        no_fields (whole_units false (live_lent (units_left view.entry)))))) }
{
    let mut listed = Listed::new(alloc);
    while let Some(piece) = view.next() {
        list_run(alloc, replica, &mut listed, &piece, most)?;
    }
    let values = listed.finish(alloc)?;
    Ok(values)
}

/// Takes the live units of a piece, as values of a list.
#[cycle(show)]
fn list_run(
    alloc: Global,
    replica: &Replica,
    listed: &mut Listed,
    piece: &RunView<'_>,
    most: u64,
) -> Result<(), NoMemory>
    requires some { 0 < piece.now.len }
    requires within { IsWithin piece.now }
    ensures { OnOk result (Lists (value_within most (own_document replica.now))
        listed.old listed.new (live_lent (units_of_view piece.now))) }
{
    if piece.deleted {
        return Ok(());
    }
    match piece.content {
        Content::Nested(kind) => {
            let value = show_nested(alloc, replica, piece.id, kind, most)?;
            listed.take_value(alloc, piece.id, value)
        }
        _ => list_piece(alloc, listed, piece),
    }
}

/// The pieces of a list's delta: it is gone along once.
#[cycle(show)]
pub fn gather(
    alloc: Global,
    replica: &Replica,
    list: &List,
    most: u64,
) -> Result<Vec<Piece>, NoMemory>
    ensures { IfOk result (λ pieces. map made pieces.items
        ≡ map told (pieces_by Delta (value_within most (own_document replica.now)) no_fields
        (seen_units (own_document replica.now) list.now))) }
{
    let mut view = replica.list(list);
    let mut gathering = Gathering::new(alloc);
    while let Some(piece) = view.next() {
        take_run(alloc, replica, &mut gathering, &piece, most)?;
    }
    let pieces = gathering.finish(alloc)?;
    Ok(pieces)
}

/// Takes the live units of a piece, as those of a delta.
#[cycle(show)]
fn take_run<'a>(
    alloc: Global,
    replica: &Replica,
    gathering: &mut Gathering<'a>,
    piece: &RunView<'a>,
    most: u64,
) -> Result<(), NoMemory>
    requires some { 0 < piece.now.len }
    requires within { IsWithin piece.now }
    requires settled { IsSettled gathering.old }
    ensures { OnOk result (Gathers Delta (value_within most (own_document replica.now))
        gathering.old gathering.new (live_lent (units_of_view piece.now))) }
{
    if piece.deleted {
        return Ok(());
    }
    match piece.content {
        Content::Nested(kind) => {
            let value = show_nested(alloc, replica, piece.id, kind, most)?;
            gathering.take_value(alloc, piece.id, value)
        }
        _ => take_piece(alloc, gathering, piece),
    }
}

/// The map of a parent: its keys in the order of their bytes, each with what stands under it.
#[cycle(show)]
pub fn show_map(
    alloc: Global,
    replica: &Replica,
    parent: &Parent,
    most: u64,
) -> Result<ShownFields, NoMemory>
    ensures { IfOk result (λ fields. shown_fields fields
        ≡ map_fields (value_within most (own_document replica.now)) (own_document replica.now)
        parent.now) }
{
    let keys = replica.keys(alloc, parent)?;
    let fields = show_keys(alloc, replica, parent, keys, most)?;
    Ok(fields)
}

/// What stands under keys of a parent, in their order.
#[cycle(show)]
pub fn show_keys(
    alloc: Global,
    replica: &Replica,
    parent: &Parent,
    keys: Vec<Text>,
    most: u64,
) -> Result<ShownFields, NoMemory>
    ensures { IfOk result (λ fields. shown_fields fields
        ≡ fields_under (value_within most (own_document replica.now)) (own_document replica.now)
        parent.now keys.items) }
{
    let mut fields = ShownFields::new(alloc);
    // As many keys come as there are. Most elements have none.
    let count = keys.as_slice().len();
    if count == 0 {
        return Ok(fields);
    }
    for key in keys {
        let value = show_under(alloc, replica, parent, &key, most)?;
        push_value(&mut fields, key, value)?;
    }
    Ok(fields)
}

/// What stands under a key: the last unit of the key's list, where it is live and counted.
#[cycle(show)]
fn show_under(
    alloc: Global,
    replica: &Replica,
    parent: &Parent,
    key: &Text,
    most: u64,
) -> Result<Option<Shown>, NoMemory>
    ensures { IfOk result (λ shown. option_map shown_tree shown
        ≡ value_under (value_within most (own_document replica.now)) (own_document replica.now)
        parent.now key.now) }
{
    let list = key_list(parent, key)?;
    let Some(unit) = replica.list(&list).last() else {
        return Ok(None);
    };
    if !is_shown(&unit) {
        return Ok(None);
    }
    let shown = show_unit(alloc, replica, &unit, most)?;
    Ok(Some(shown))
}

/// The value of a unit.
#[cycle(show)]
fn show_unit(
    alloc: Global,
    replica: &Replica,
    unit: &RunView<'_>,
    most: u64,
) -> Result<Shown, NoMemory>
    requires one { unit.now.len ≡ 1 }
    requires within { IsWithin unit.now }
    ensures { IfOk result (λ shown. shown_tree shown
        ≡ value_within most (own_document replica.now)
        (bare unit.now.id (unit_of_view unit.now).content)) }
{
    match unit.content {
        Content::Nested(kind) => show_nested(alloc, replica, unit.id, kind, most),
        _ => plain_at(alloc, unit.content, unit.offset),
    }
}

/// Whether a unit is live and counted.
fn is_shown(unit: &RunView<'_>) -> bool
    ensures { result ≡ not unit.now.deleted && are_counted unit.now.content.now }
{
    !unit.deleted && is_counted(unit.content)
}

/// Whether the units of a content count as values.
fn is_counted(content: &Content) -> bool
    ensures { result ≡ are_counted content.now }
{
    match content {
        Content::Format { .. } => false,
        Content::Deleted(_) => false,
        _ => true,
    }
}
