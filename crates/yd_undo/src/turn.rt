//! What undoes an entry, made while nothing has changed yet.

ghost use Rattle.std.specs.Prelude.{◌≡◌, ◌<◌, Some, IfOk, IfErr, OnOk, vec_len, vec_capacity};
ghost use Rattle.yd_ops.specs.Valid.{IsValidUpdate};
ghost use Rattle.yd_ops.specs.View.{update_value};
ghost use Rattle.yd_editing.specs.Refused.{refusal_of};
ghost use Rattle.yd_making.specs.Steps.{IsCause};
ghost use Rattle.yd_doc.specs.Editing.{own_basis, IsPrepared};
ghost use Rattle.yd_undo.specs.Remade.{seen_of};
ghost use Rattle.yd_undo.specs.Stacks.{newest_entry, IsUndoCause};
ghost use Rattle.yd_undo.specs.Steps.{undo_steps as steps_of_undo};
ghost use Rattle.yd_undo.specs.Turn.{IsReady, IsTurn};

use crate::entry::{Entry, entry_of};
use crate::steps::undo_steps;
use std::alloc::Global;
use yd_doc::Replica;
use yd_doc::law::{own_document_is_replicas, received_can_be_grouped};
use yd_ids::IdSet;
use yd_making::{EditFault, NoMemory};
use yd_ops::Update;

/// The update that undoes an entry, and what is kept of it.
#[derive(Drop)]
pub struct Turn {
    /// The update.
    pub update: Update,
    /// Its entry, for the other stack.
    pub entry: Entry,
    /// What is noted as deleted with it.
    pub noted: IdSet,
}

/// What undoes the newest of some entries on a replica, where these ids were noted as deleted before.
pub(crate) fn turn_of(
    alloc: Global,
    replica: &Replica,
    noted: &IdSet,
    entries: &[Entry],
) -> Result<Turn, EditFault>
    ensures ready { IfOk result (λ turn.
        IsReady (newest_entry entries.now) replica.now (update_value turn.update)) }
    ensures kept { IfOk result (IsTurn noted.now) }
    ensures valid { IfOk result (λ turn. IsValidUpdate (update_value turn.update)) }
    ensures refused { IfErr result (λ fault.
        IsUndoCause fault (newest_entry entries.now) replica.now) }
{
    match entries.last() {
        None => Err(EditFault::Nothing),
        Some(entry) => turn_for(alloc, replica, noted, entry),
    }
}

/// What undoes an entry.
fn turn_for(
    alloc: Global,
    replica: &Replica,
    noted: &IdSet,
    entry: &Entry,
) -> Result<Turn, EditFault>
    ensures ready { IfOk result (λ turn.
        IsReady (Some entry.now) replica.now (update_value turn.update)) }
    ensures kept { IfOk result (IsTurn noted.now) }
    ensures valid { IfOk result (λ turn. IsValidUpdate (update_value turn.update)) }
    ensures refused { IfErr result (λ fault. IsUndoCause fault (Some entry.now) replica.now) }
{
    match update_of(alloc, replica, entry) {
        Ok(update) => {
            let turn = turn_with(alloc, noted, update)?;
            Ok(turn)
        }
        Err(fault) => Err(fault),
    }
}

/// The update that undoes an entry.
fn update_of(alloc: Global, replica: &Replica, entry: &Entry) -> Result<Update, EditFault>
    ensures made { IfOk result (λ update. IsPrepared replica.now
        (steps_of_undo (seen_of replica.now) entry.now) (update_value update)) }
    ensures refused { IfErr result (λ fault. IsCause fault (refusal_of (own_basis replica.now)
        (steps_of_undo (seen_of replica.now) entry.now))) }
{
    // What is received is looked at, since its values are valid.
    received_can_be_grouped(replica);
    own_document_is_replicas(replica);
    let steps = undo_steps(alloc, replica, entry)?;
    replica.prepare(steps)
}

/// What is kept of an update, with the update.
fn turn_with(alloc: Global, noted: &IdSet, update: Update) -> Result<Turn, NoMemory>
    requires { IsValidUpdate (update_value update) }
    ensures kept { IfOk result (IsTurn noted.now) }
    ensures update { IfOk result (λ turn. turn.update ≡ update) }
{
    let entry = entry_of(alloc, noted, &update)?;
    let mut noted = noted.copy()?;
    noted.union(&update.deletes)?;
    Ok(Turn {
        update,
        entry,
        noted,
    })
}

/// Takes room for one entry more.
pub(crate) fn reserve_one(entries: &mut Vec<Entry>) -> Result<(), NoMemory>
    ensures kept { entries.new.items ≡ entries.old.items }
    ensures room { OnOk result (vec_len entries.new < vec_capacity entries.new) }
{
    entries.reserve(1)?;
    Ok(())
}
