//! Marks of a key: its value in force at a unit, and its marks between two units.

ghost use Rattle.std.specs.Prelude.{◌<◌, ◌≡◌, ◌&&◌, ◌||◌, Some, IfOk, IfErr, OnOk, IsTrue, option_copied};
ghost use Rattle.yd_any.specs.JsonView.{json_tree};
ghost use Rattle.yd_any.specs.Tree.{null};
ghost use Rattle.yd_any.specs.Valid.{is_valid_json};
ghost use Rattle.yd_ids.specs.Set.{AreMaximal};
ghost use Rattle.yd_editing.specs.Made.{units_up_to};
ghost use Rattle.yd_editing.specs.TextEdit.{value_in_force, marks_between, ids_of_units};
ghost use Rattle.yd_meaning.specs.Text.{live_units};
ghost use Rattle.yd_ops.specs.View.{content_value};
ghost use Rattle.yd_making.specs.declared.fault.EditFault.TheVariants.{NoMemory as NoRoom};
ghost use Rattle.yd_state.specs.Lent.{IsWithin};
ghost use Rattle.yd_doc.specs.Kept.{own_document};
ghost use Rattle.yd_text.specs.Marks.{value_given, value_behind, are_marks_of, GetsWhere};
ghost use Rattle.yd_text.specs.Rows.{is_in_row};

use crate::neighbours::has_id;
use std::alloc::Global;
use yd_any::{Json, Text};
use yd_doc::law::received_can_be_grouped;
use yd_doc::{EditFault, Replica, RunView};
use yd_ids::{Id, IdSet, NoMemory, Span};
use yd_ops::{Content, List};

/// The key's value in force at a live unit: that of its last live mark before the unit, and null
/// where there is none. It takes time as reading the list by pieces does, up to that unit.
pub(crate) fn value_at(
    replica: &Replica,
    list: &List,
    key: &Text,
    unit: Id,
) -> Result<Json, EditFault>
    ensures value { IfOk result (λ value. json_tree value ≡ value_in_force key.now
        (units_up_to (Some unit) (live_units (own_document replica.now) list.now)) null) }
    ensures valid { IfOk result (λ value. IsTrue (is_valid_json (json_tree value))) }
    ensures memory { IfErr result (λ fault. fault ≡ NoRoom) }
{
    // What is received is looked at, since its values are valid.
    received_can_be_grouped(replica);
    let mut view = replica.list(list);
    let mut value = None;
    while let Some(piece) = view.next() {
        if piece.deleted {
            continue;
        }
        value = value_behind(piece.content, key, value);
        if has_id(&piece, unit) {
            return copy_of(value);
        }
    }
    copy_of(value)
}

/// The key's value behind units of a content, where this one was in force before them.
fn value_behind<'a>(content: &'a Content, key: &Text, before: Option<&'a Json>) -> Option<&'a Json>
    ensures { value_given (option_copied result) ≡ value_behind key.now
        (content_value content.now) (value_given (option_copied before.entry)) }
{
    match content {
        Content::Format { key: other, value } => {
            if other.as_str() == key.as_str() {
                return Some(value);
            }
            before
        }
        _ => before,
    }
}

/// The value once more, and null where there is none.
fn copy_of(value: Option<&Json>) -> Result<Json, EditFault>
    requires { IsTrue (is_valid_json (value_given (option_copied value))) }
    ensures value { IfOk result (λ copy. json_tree copy ≡ value_given (option_copied value.entry)) }
    ensures memory { IfErr result (λ fault. fault ≡ NoRoom) }
{
    match value {
        None => Ok(Json::Null),
        Some(value) => match value.copy() {
            Ok(copy) => Ok(copy),
            Err(_) => Err(EditFault::NoMemory),
        },
    }
}

/// The ids of the key's live marks that stand between two live units. It takes time as reading the
/// list by pieces does, up to the last unit, and an insertion for each of the marks.
pub(crate) fn marks_between(
    alloc: Global,
    replica: &Replica,
    list: &List,
    key: &Text,
    first: Id,
    last: Id,
) -> Result<IdSet, NoMemory>
    ensures { IfOk result (λ ids. ids ≡ ids_of_units
        (marks_between (own_document replica.now) list.now key.now first last)) }
{
    let mut ids = IdSet::new(alloc);
    let mut view = replica.list(list);
    let mut came = false;
    while let Some(piece) = view.next() {
        if piece.deleted {
            continue;
        }
        add_mark(&mut ids, &piece, key, came)?;
        if has_id(&piece, last) {
            return Ok(ids);
        }
        came = has_come(came, &piece, first);
    }
    Ok(ids)
}

/// The first unit came, or is one of the piece's.
fn has_come(came: bool, piece: &RunView<'_>, first: Id) -> bool
    ensures { result ≡ (came || is_in_row piece.now.id piece.now.len first) }
{
    if came {
        return true;
    }
    has_id(piece, first)
}

/// Adds the id of the piece, where the first unit came and the piece is a mark of the key.
fn add_mark(ids: &mut IdSet, piece: &RunView<'_>, key: &Text, came: bool) -> Result<(), NoMemory>
    requires within { IsWithin piece.now }
    requires some { 0 < piece.now.len }
    requires maximal { AreMaximal ids.old }
    ensures added { OnOk result (GetsWhere
        (came && are_marks_of key.now (content_value piece.now.content.now)) piece.now.id
        ids.old ids.new) }
    ensures maximal { AreMaximal ids.new }
{
    if !came {
        return Ok(());
    }
    if !is_mark_of(piece.content, key) {
        return Ok(());
    }
    ids.insert(Span {
        client: piece.id.client,
        clock: piece.id.clock,
        len: 1,
    })?;
    Ok(())
}

/// Units of the content are marks of the key.
fn is_mark_of(content: &Content, key: &Text) -> bool
    ensures { result ≡ are_marks_of key.now (content_value content.now) }
{
    match content {
        Content::Format { key: other, .. } => other.as_str() == key.as_str(),
        _ => false,
    }
}
