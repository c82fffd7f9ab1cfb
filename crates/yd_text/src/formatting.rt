//! Formats.

ghost use Rattle.std.specs.Prelude.{◌≡◌, ◌+◌, ◌^◌, ◌<◌, None, IfOk, IfErr, OnOk, OnErr, IfSome, IsTrue};
ghost use Rattle.yd_words.specs.Each.{Each};
ghost use Rattle.yd_any.specs.JsonView.{json_tree};
ghost use Rattle.yd_any.specs.Valid.{is_valid_json};
ghost use Rattle.yd_ids.specs.Id.{IsId};
ghost use Rattle.yd_ops.specs.Valid.{IsParent};
ghost use Rattle.yd_ops.specs.Value.{format as format_value};
ghost use Rattle.yd_ops.specs.View.{update_value};
ghost use Rattle.yd_editing.specs.Step.{make};
ghost use Rattle.yd_editing.specs.TextEdit.{format_steps, format_between, format_refusal};
ghost use Rattle.yd_making.specs.Steps.{step_value, steps_value, IsProper, IsCause};
ghost use Rattle.yd_making.specs.declared.fault.EditFault.TheVariants.{NoMemory as NoRoom};
ghost use Rattle.yd_doc.specs.Editing.{own_basis, IsEdit};
ghost use Rattle.yd_doc.specs.Kept.{own_document};

use crate::marks::{marks_between, value_at};
use crate::neighbours::unit_before;
use crate::refusing::{list_fault, range_fault};
use std::alloc::Global;
use yd_any::{Json, Text};
use yd_doc::{EditFault, Replica, Step, StepList};
use yd_ids::Id;
use yd_ops::{Content, List, Update};

/// Gives the key a value over so many live counted units from an index on. A mark of the value
/// comes directly before the first of them, and behind the last one a mark of the value that was in
/// force there, null for none; the key's live marks between the two units are removed by name. Of
/// no units nothing is made, and the index is judged all the same. `NoPlace`, where the list's
/// parent is no type item that is held and something is made; and else as `delete` and
/// `Replica::edit` refuse. After a refusal the replica is as before (Yjs 13, format of a text;
/// where the marks go, and which are made, is own).
pub fn format(
    alloc: Global,
    replica: &mut Replica,
    list: &List,
    index: u64,
    len: u64,
    key: &Text,
    value: Json,
) -> Result<Update, EditFault>
    requires parent { IsParent list.now.parent }
    requires valid { IsTrue (is_valid_json (json_tree value)) }
    ensures done { IfOk result (λ update. IsEdit replica.old replica.new
        (format_steps (own_document replica.old) list.now index len key.now (json_tree value))
        (update_value update)) }
    ensures accepted { OnOk result (format_refusal (own_basis replica.old) list.now index len
        key.now (json_tree value) ≡ None) }
    ensures refused { IfErr result (λ fault. IsCause fault (format_refusal
        (own_basis replica.old) list.now index len key.now (json_tree value))) }
    ensures unchanged { OnErr result (replica.new ≡ replica.old) }
{
    if let Some(fault) = list_fault(replica, list, len > 0) {
        return Err(fault);
    }
    if let Some(fault) = range_fault(replica, list, index, len) {
        return Err(fault);
    }
    let steps = steps_of(alloc, replica, list, index, len, key, value)?;
    match replica.edit(steps) {
        Ok(update) => Ok(update),
        Err(fault) => Err(fault),
    }
}

/// The steps of a format, none where there are no units.
fn steps_of(
    alloc: Global,
    replica: &Replica,
    list: &List,
    index: u64,
    len: u64,
    key: &Text,
    value: Json,
) -> Result<StepList, EditFault>
    requires parent { IsParent list.now.parent }
    requires valid { IsTrue (is_valid_json (json_tree value)) }
    requires in_range { index + len < 2 ^ 64 }
    ensures steps { IfOk result (λ steps. steps_value steps ≡ format_steps
        (own_document replica.now) list.now index len key.now (json_tree value)) }
    ensures proper { IfOk result (λ steps. Each IsProper (steps_value steps)) }
    ensures memory { IfErr result (λ fault. fault ≡ NoRoom) }
{
    if len == 0 {
        return Ok(StepList::new(alloc));
    }
    let first = replica.unit_at(list, index);
    let last = replica.unit_at(list, index + (len - 1));
    let steps = steps_between(alloc, replica, list, key, value, first, last)?;
    Ok(steps)
}

/// The steps of a format from one unit to another, none where one of them is missing.
fn steps_between(
    alloc: Global,
    replica: &Replica,
    list: &List,
    key: &Text,
    value: Json,
    first: Option<Id>,
    last: Option<Id>,
) -> Result<StepList, EditFault>
    requires parent { IsParent list.now.parent }
    requires valid { IsTrue (is_valid_json (json_tree value)) }
    requires last { IfSome last IsId }
    ensures steps { IfOk result (λ steps. steps_value steps ≡ format_between
        (own_document replica.now) list.now key.now (json_tree value) first last) }
    ensures proper { IfOk result (λ steps. Each IsProper (steps_value steps)) }
    ensures memory { IfErr result (λ fault. fault ≡ NoRoom) }
{
    let mut steps = StepList::new(alloc);
    if let (Some(first), Some(last)) = (first, last) {
        let before = unit_before(replica, list, first);
        let old = value_at(replica, list, key, last)?;
        let marks = marks_between(alloc, replica, list, key, first, last)?;
        steps.push(mark_step(list, before, key, value)?)?;
        steps.push(mark_step(list, Some(last), key, old)?)?;
        steps.push(Step::Remove(marks))?;
    }
    Ok(steps)
}

/// The step that makes a mark behind a unit of the list, or at its front.
fn mark_step(list: &List, after: Option<Id>, key: &Text, value: Json) -> Result<Step, EditFault>
    requires parent { IsParent list.now.parent }
    requires valid { IsTrue (is_valid_json (json_tree value)) }
    requires after { IfSome after IsId }
    ensures step { IfOk result (λ step. step_value step
        ≡ make list.now after (format_value key.now (json_tree value))) }
    ensures memory { IfErr result (λ fault. fault ≡ NoRoom) }
{
    let list = list.copy()?;
    let key = match key.copy() {
        Ok(key) => key,
        Err(_) => return Err(EditFault::NoMemory),
    };
    Ok(Step::Make {
        list,
        after,
        content: Content::Format { key, value },
    })
}
