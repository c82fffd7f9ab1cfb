//! Edits noted for an undo, and undos and redos.

ghost use Rattle.std.specs.Prelude.{◌≡◌, Some, IfOk, IfErr};
ghost use Rattle.yd_ops.specs.Valid.{IsValidUpdate};
ghost use Rattle.yd_ops.specs.View.{update_value};
ghost use Rattle.yd_doc.specs.Editing.{own_basis};
ghost use Rattle.yd_doc.specs.Kept.{received_of};
ghost use Rattle.yd_undo.specs.Stacks.{newest_entry, after_note, after_redo, after_undo};
ghost use Rattle.yd_playing.specs.Answer.{PlaysAs, AreValid};
ghost use Rattle.yd_playing.specs.Desk.{desk_of};
ghost use Rattle.yd_playing.specs.Ended.{undo_ends};
ghost use Rattle.yd_playing.specs.declared.fault.PlayFault.TheVariants.{NoMemory as NoRoom};

use crate::desk::Desk;
use crate::fault::{PlayFault, refused};
use yd_doc::Replica;
use yd_ops::Update;

/// Notes an update as the newest that can be undone, and answers it.
pub(crate) fn noted(desk: &mut Desk, update: Update) -> Result<Option<Update>, PlayFault>
    requires { IsValidUpdate (update_value update) }
    ensures update { IfOk result (λ kept. kept ≡ Some update) }
    ensures noted { IfOk result (λ kept. desk.new.undo
        ≡ after_note desk.old.undo (update_value update)) }
    ensures marks { desk.new.marks.items ≡ desk.old.marks.items }
    ensures valid { IfOk result AreValid }
    ensures memory { IfErr result (λ fault. fault ≡ NoRoom) }
{
    desk.undo.note(&update)?;
    Ok(Some(update))
}

/// Undoes the newest edit.
pub(crate) fn play_undo(
    replica: &mut Replica,
    desk: &mut Desk,
    number: u64,
) -> Result<Option<Update>, PlayFault>
    ensures plays { PlaysAs (undo_ends (own_basis replica.old) (desk_of replica.old desk.old)
        (after_undo desk.old.undo) (newest_entry desk.old.undo.undo)) number
        (received_of replica.old) (desk_of replica.new desk.new) result }
    ensures valid { IfOk result AreValid }
    ensures client { replica.new.client ≡ replica.old.client }
{
    match desk.undo.undo(replica) {
        Ok(update) => Ok(Some(update)),
        Err(fault) => Err(refused(number, fault)),
    }
}

/// Undoes the newest undo.
pub(crate) fn play_redo(
    replica: &mut Replica,
    desk: &mut Desk,
    number: u64,
) -> Result<Option<Update>, PlayFault>
    ensures plays { PlaysAs (undo_ends (own_basis replica.old) (desk_of replica.old desk.old)
        (after_redo desk.old.undo) (newest_entry desk.old.undo.redo)) number
        (received_of replica.old) (desk_of replica.new desk.new) result }
    ensures valid { IfOk result AreValid }
    ensures client { replica.new.client ≡ replica.old.client }
{
    match desk.undo.redo(replica) {
        Ok(update) => Ok(Some(update)),
        Err(fault) => Err(refused(number, fault)),
    }
}
