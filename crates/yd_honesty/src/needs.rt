//! What the first of some units needs.

ghost use Rattle.std.specs.Prelude.{◌≡◌, ◌++◌, IfOk, OnOk};
ghost use Rattle.yd_meaning.specs.Held.{given, id_before, item_carried};
ghost use Rattle.yd_meaning.specs.Names.{item_of_parent};
ghost use Rattle.yd_entries.specs.Entries.{IsTakenOf, carried_of};
ghost use Rattle.yd_honesty.specs.Pasts.{entry_needs};

use crate::fault::NoMemory;
use std::alloc::Global;
use yd_ids::Id;
use yd_ops::{List, Parent, Run};
use yd_received::{Entry, Received};

/// The ids that the first of the units needs: the unit before it of its client, its origins, and
/// the item of the list that it carries.
pub(crate) fn needs_of(
    alloc: Global,
    received: &Received,
    entry: Entry,
) -> Result<Vec<Id>, NoMemory>
    requires { IsTakenOf received.now.runs entry }
    ensures { IfOk result (λ needs. needs.items ≡ entry_needs received.now entry) }
{
    let mut needs = Vec::new(alloc);
    push_some(&mut needs, id_before(entry.id))?;
    push_some(&mut needs, entry.left)?;
    push_some(&mut needs, entry.right)?;
    push_some(&mut needs, first_item(received.runs(), entry))?;
    Ok(needs)
}

/// Appends an id, if there is one.
fn push_some(ids: &mut Vec<Id>, id: Option<Id>) -> Result<(), NoMemory>
    ensures { OnOk result (ids.new.items ≡ ids.old.items ++ given id) }
{
    if let Some(id) = id {
        ids.push(id)?;
    }
    Ok(())
}

/// The id of the unit before, if the unit is not its client's first.
fn id_before(id: Id) -> Option<Id>
    ensures { given result ≡ id_before id.client id.clock }
{
    let clock = id.clock.checked_sub(1)?;
    Some(Id {
        client: id.client,
        clock,
    })
}

/// The item of the list that the first of the units carries.
fn first_item(runs: &[Run], entry: Entry) -> Option<Id>
    requires { IsTakenOf runs.now entry }
    ensures { result ≡ item_carried (carried_of runs.now entry) }
{
    if entry.is_gone || entry.offset > 0 {
        return None;
    }
    item_in(&runs[entry.run].list)
}

/// The item that a list belongs to.
fn item_in(list: &Option<List>) -> Option<Id>
    ensures { result ≡ item_carried list.now }
{
    match list {
        None => None,
        Some(list) => item_of(&list.parent),
    }
}

/// The item that a parent is.
fn item_of(parent: &Parent) -> Option<Id>
    ensures { result ≡ item_of_parent parent.now }
{
    match parent {
        Parent::Root(_) => None,
        Parent::Item(id) => Some(*id),
    }
}
