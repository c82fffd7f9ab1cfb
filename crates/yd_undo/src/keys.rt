//! What is made again in lists with a key.

ghost use Rattle.std.specs.Prelude.{◌≡◌, ◌++◌, Some, OnOk};
ghost use Rattle.yd_ids.specs.Id.{IsSpan};
ghost use Rattle.yd_ids.specs.Ids.{is_same_neighbour};
ghost use Rattle.yd_making.specs.Steps.{steps_value};
ghost use Rattle.yd_undo.specs.Remade.{seen_of, is_made_in, step_of_key, key_steps_from, steps_of_keys};

use crate::remaking::{has_key, is_place};
use std::alloc::Global;
use yd_copying::copied;
use yd_doc::law::received_can_be_grouped;
use yd_doc::{Replica, Step, StepList};
use yd_ids::{Id, IdSet, Span, is_same};
use yd_making::NoMemory;
use yd_ops::List;
use yd_remaking::{group_at, last_made};
use yd_subsets::span_below;

/// Adds the steps that make deleted ids in lists with a key again. For each held id it takes a
/// look-up, and for one in a list with a key time as reading that list by pieces does.
pub(crate) fn add_keys(
    alloc: Global,
    replica: &Replica,
    deleted: &IdSet,
    steps: &mut StepList,
) -> Result<(), NoMemory>
    ensures { OnOk result (steps_value steps.new ≡ steps_value steps.old
        ++ steps_of_keys (seen_of replica.now) deleted.now deleted.now) }
{
    for span in deleted.spans() {
        let held = span_below(span, replica.vector());
        add_span(alloc, replica, deleted, held, steps)?;
    }
    Ok(())
}

/// Adds those of ids in a row.
fn add_span(
    alloc: Global,
    replica: &Replica,
    deleted: &IdSet,
    span: Span,
    steps: &mut StepList,
) -> Result<(), NoMemory>
    requires { IsSpan span }
    ensures { OnOk result (steps_value steps.new ≡ steps_value steps.old
        ++ key_steps_from (seen_of replica.now) deleted.now
        (record { client = span.client; clock = span.clock }) span.len) }
{
    let mut at = Id {
        client: span.client,
        clock: span.clock,
    };
    let mut left = span.len;
    while left > 0 {
        add_key(alloc, replica, deleted, at, steps)?;
        at.clock += 1;
        left -= 1;
    }
    Ok(())
}

/// Adds that of an id, where it is in a list with a key and stands last there.
fn add_key(
    alloc: Global,
    replica: &Replica,
    deleted: &IdSet,
    id: Id,
    steps: &mut StepList,
) -> Result<(), NoMemory>
    ensures { OnOk result (steps_value steps.new ≡ steps_value steps.old
        ++ step_of_key (seen_of replica.now) deleted.now ((seen_of replica.now).list_of id) id) }
{
    match replica.list_of(id) {
        None => Ok(()),
        Some(list) => {
            add_key_in(alloc, replica, deleted, list, id, steps)?;
            Ok(())
        }
    }
}

/// The same, where this is the id's list.
fn add_key_in(
    alloc: Global,
    replica: &Replica,
    deleted: &IdSet,
    list: &List,
    id: Id,
    steps: &mut StepList,
) -> Result<(), NoMemory>
    ensures { OnOk result (steps_value steps.new ≡ steps_value steps.old
        ++ step_of_key (seen_of replica.now) deleted.now (Some list.now) id) }
{
    if !is_made(replica, deleted, list, id) {
        return Ok(());
    }
    // What is received is looked at, since its values are valid.
    received_can_be_grouped(replica);
    match group_at(alloc, replica.list_around(list, id), id, 1)? {
        None => Ok(()),
        Some(group) => {
            let content = copied(alloc, &group.pieces)?;
            let after = replica.last_of(list);
            let list = list.copy()?;
            steps.push(Step::Make {
                list,
                after,
                content,
            })?;
            Ok(())
        }
    }
}

/// The id is made in a list: this has a key and is a place, and of the deleted ids the id stands last
/// there.
fn is_made(replica: &Replica, deleted: &IdSet, list: &List, id: Id) -> bool
    ensures { result ≡ is_made_in (seen_of replica.now) deleted.now list.now id }
{
    has_key(list) && is_place(replica, list) && is_unit(last_made(replica.list(list), deleted), id)
}

/// It is this unit.
fn is_unit(unit: Option<Id>, id: Id) -> bool
    ensures { result ≡ is_same_neighbour (Some id) unit }
{
    match unit {
        None => false,
        Some(other) => is_same(id, other),
    }
}
