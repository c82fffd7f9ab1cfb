//! Each kind of line, played.

ghost use Rattle.std.specs.Prelude.{◌≡◌, ◌++◌, Ok, map, IfOk, IfErr, OnOk};
ghost use Rattle.yd_ops.specs.Valid.{IsParent};
ghost use Rattle.yd_ops.specs.View.{update_value};
ghost use Rattle.yd_script.specs.Line.{IsValidChange, IsValidLine, change_of, line_of, target_of};
ghost use Rattle.yd_doc.specs.Editing.{own_basis};
ghost use Rattle.yd_doc.specs.Kept.{received_of};
ghost use Rattle.yd_playing.specs.Desk.{desk_of};
ghost use Rattle.yd_playing.specs.Ended.{change_ends, line_ends, mark_ends};
ghost use Rattle.yd_playing.specs.Led.{led};
ghost use Rattle.yd_playing.specs.Answer.{PlaysAs, AreValid, updates_in};
ghost use Rattle.yd_playing.specs.declared.fault.PlayFault.TheVariants.{NoMemory as NoRoom};

use crate::at_marks::play_insert_at;
use crate::carrying::carry_out;
use crate::desk::{Desk, Mark};
use crate::fault::{PlayFault, no_target, refused};
use crate::leading::lead;
use crate::undoing::{noted, play_redo, play_undo};
use std::alloc::Global;
use yd_any::Text;
use yd_doc::Replica;
use yd_ops::{List, Parent, Update};
use yd_places::position_at;
use yd_script::{Change, Line, Place, Target};
use yd_v1::UpdateList;

/// Plays what the line with a number asks for. It answers the update that this makes; a mark makes
/// none.
pub(crate) fn play_asked(
    alloc: Global,
    replica: &mut Replica,
    desk: &mut Desk,
    number: u64,
    line: Line,
) -> Result<Option<Update>, PlayFault>
    requires { IsValidLine (line_of line) }
    ensures plays { PlaysAs (line_ends (own_basis replica.old) (desk_of replica.old desk.old)
        (line_of line)) number (received_of replica.old) (desk_of replica.new desk.new) result }
    ensures valid { IfOk result AreValid }
    ensures client { replica.new.client ≡ replica.old.client }
{
    match line {
        Line::Change { target, change } => {
            play_change(alloc, replica, desk, number, target, change)
        }
        Line::Mark { name, place } => play_mark(alloc, replica, desk, number, name, place),
        Line::InsertAt { name, text } => play_insert_at(alloc, replica, desk, number, &name, &text),
        Line::Undo => play_undo(replica, desk, number),
        Line::Redo => play_redo(replica, desk, number),
    }
}

/// Plays a change of a target.
fn play_change(
    alloc: Global,
    replica: &mut Replica,
    desk: &mut Desk,
    number: u64,
    target: Target,
    change: Change,
) -> Result<Option<Update>, PlayFault>
    requires { IsValidChange (change_of change) }
    ensures plays { PlaysAs (change_ends (own_basis replica.old) (desk_of replica.old desk.old)
        (change_of change) (led (own_basis replica.old) (target_of target))) number
        (received_of replica.old) (desk_of replica.new desk.new) result }
    ensures valid { IfOk result AreValid }
    ensures client { replica.new.client ≡ replica.old.client }
{
    match lead(replica, target) {
        Ok(parent) => play_change_at(alloc, replica, desk, number, parent, change),
        Err(step) => Err(no_target(number, step)),
    }
}

/// Plays a change of a root or a type.
fn play_change_at(
    alloc: Global,
    replica: &mut Replica,
    desk: &mut Desk,
    number: u64,
    parent: Parent,
    change: Change,
) -> Result<Option<Update>, PlayFault>
    requires parent { IsParent parent }
    requires valid { IsValidChange (change_of change) }
    ensures plays { PlaysAs (change_ends (own_basis replica.old) (desk_of replica.old desk.old)
        (change_of change) (Ok parent)) number (received_of replica.old)
        (desk_of replica.new desk.new) result }
    ensures valid { IfOk result AreValid }
    ensures client { replica.new.client ≡ replica.old.client }
{
    match carry_out(alloc, replica, parent, change) {
        Ok(update) => noted(desk, update),
        Err(fault) => Err(refused(number, fault)),
    }
}

/// Keeps a place under a name.
fn play_mark(
    alloc: Global,
    replica: &Replica,
    desk: &mut Desk,
    number: u64,
    name: Text,
    place: Place,
) -> Result<Option<Update>, PlayFault>
    ensures plays { PlaysAs (mark_ends (own_basis replica.now) (desk_of replica.now desk.old)
        name place.index place.assoc (led (own_basis replica.now) (target_of place.target))) number
        (received_of replica.now) (desk_of replica.now desk.new) result }
    ensures valid { IfOk result AreValid }
{
    let Place {
        target,
        index,
        assoc,
    } = place;
    match lead(replica, target) {
        Err(step) => Err(no_target(number, step)),
        Ok(parent) => {
            let list = List { parent, key: None };
            match position_at(alloc, replica, &list, index, assoc) {
                Ok(position) => {
                    desk.marks.push(Mark { name, position })?;
                    Ok(None)
                }
                Err(fault) => Err(refused(number, fault)),
            }
        }
    }
}

/// Adds the update that a line made to a list, where it made one.
pub(crate) fn push_made(updates: &mut UpdateList, made: Option<Update>) -> Result<(), PlayFault>
    ensures added { OnOk result (map update_value updates.new
        ≡ map update_value updates.old ++ updates_in made) }
    ensures memory { IfErr result (λ fault. fault ≡ NoRoom) }
{
    if let Some(update) = made {
        updates.push(update)?;
    }
    Ok(())
}
