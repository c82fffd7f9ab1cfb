//! What is made again in lists without a key.

ghost use Rattle.std.specs.Prelude.{◌≡◌, ◌<◌, ◌≤◌, ◌++◌, Some, OnOk, IfOk};
ghost use Rattle.yd_ids.specs.Id.{IsSpan};
ghost use Rattle.yd_making.specs.Steps.{steps_value};
ghost use Rattle.yd_meaning.specs.Names.{has_key};
ghost use Rattle.yd_undo.specs.Remade.{seen_of, is_place, group_in, step_of_group, taken_by, steps_from, steps_of_groups};

use std::alloc::Global;
use yd_copying::copied;
use yd_doc::law::received_can_be_grouped;
use yd_doc::{Replica, Step, StepList};
use yd_ids::{Id, IdSet, Span};
use yd_making::NoMemory;
use yd_ops::{List, Parent};
use yd_remaking::group_at;
use yd_subsets::span_below;

/// Adds the steps that make deleted ids in lists without a key again. It takes a look-up for each held
/// id that is in no group. For each group it takes a few look-ups, and time as reading it and the run
/// before it by pieces does.
pub(crate) fn add_groups(
    alloc: Global,
    replica: &Replica,
    deleted: &IdSet,
    steps: &mut StepList,
) -> Result<(), NoMemory>
    ensures { OnOk result (steps_value steps.new
        ≡ steps_value steps.old ++ steps_of_groups (seen_of replica.now) deleted.now) }
{
    for span in deleted.spans() {
        let held = span_below(span, replica.vector());
        add_span(alloc, replica, held, steps)?;
    }
    Ok(())
}

/// Adds those of ids in a row.
fn add_span(
    alloc: Global,
    replica: &Replica,
    span: Span,
    steps: &mut StepList,
) -> Result<(), NoMemory>
    requires { IsSpan span }
    ensures { OnOk result (steps_value steps.new ≡ steps_value steps.old
        ++ steps_from (seen_of replica.now) (record { client = span.client; clock = span.clock }) 0
        span.len) }
{
    let mut at = Id {
        client: span.client,
        clock: span.clock,
    };
    let mut left = span.len;
    while left > 0 {
        let taken = add_group(alloc, replica, at, left, steps)?;
        at.clock += taken;
        left -= taken;
    }
    Ok(())
}

/// Adds that of the group which begins with an id, and tells how many ids are done then.
fn add_group(
    alloc: Global,
    replica: &Replica,
    id: Id,
    most: u64,
    steps: &mut StepList,
) -> Result<u64, NoMemory>
    requires { 0 < most }
    ensures added { OnOk result (steps_value steps.new ≡ steps_value steps.old
        ++ step_of_group (seen_of replica.now) ((seen_of replica.now).list_of id) id
        (group_in (seen_of replica.now) ((seen_of replica.now).list_of id) id most)) }
    ensures taken { IfOk result (λ taken. taken
        ≡ taken_by (group_in (seen_of replica.now) ((seen_of replica.now).list_of id) id most)) }
    ensures some { IfOk result (λ taken. 0 < taken) }
    ensures bound { IfOk result (λ taken. taken ≤ most) }
{
    match replica.list_of(id) {
        None => Ok(1),
        Some(list) => {
            let taken = add_group_in(alloc, replica, list, id, most, steps)?;
            Ok(taken)
        }
    }
}

/// The same, where this is the id's list.
fn add_group_in(
    alloc: Global,
    replica: &Replica,
    list: &List,
    id: Id,
    most: u64,
    steps: &mut StepList,
) -> Result<u64, NoMemory>
    requires { 0 < most }
    ensures added { OnOk result (steps_value steps.new ≡ steps_value steps.old
        ++ step_of_group (seen_of replica.now) (Some list.now) id
        (group_in (seen_of replica.now) (Some list.now) id most)) }
    ensures taken { IfOk result (λ taken. taken
        ≡ taken_by (group_in (seen_of replica.now) (Some list.now) id most)) }
    ensures some { IfOk result (λ taken. 0 < taken) }
    ensures bound { IfOk result (λ taken. taken ≤ most) }
{
    if has_key(list) {
        return Ok(1);
    }
    if !is_place(replica, list) {
        return Ok(1);
    }
    // What is received is looked at, since its values are valid.
    received_can_be_grouped(replica);
    match group_at(alloc, replica.list_around(list, id), id, most)? {
        None => Ok(1),
        Some(group) => {
            let content = copied(alloc, &group.pieces)?;
            let list = list.copy()?;
            steps.push(Step::Make {
                list,
                after: group.before,
                content,
            })?;
            Ok(group.len)
        }
    }
}

/// The list has a key.
pub(crate) fn has_key(list: &List) -> bool
    ensures { result ≡ has_key list.now }
{
    match &list.key {
        None => false,
        Some(_) => true,
    }
}

/// The list is a root's, or a type item's that is held and not lost.
pub(crate) fn is_place(replica: &Replica, list: &List) -> bool
    ensures { result ≡ is_place (seen_of replica.now) list.now }
{
    match &list.parent {
        Parent::Root(_) => true,
        Parent::Item(id) => replica.has_type(*id),
    }
}
