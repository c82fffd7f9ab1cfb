//! What units lack.

ghost use Rattle.std.specs.Prelude.{◌≡◌, IfSome};
ghost use Rattle.yd_ids.specs.Id.{IsId};
ghost use Rattle.yd_ids.specs.Vector.{clock_of};
ghost use Rattle.yd_meaning.specs.Names.{item_of_parent};
ghost use Rattle.yd_meaning.specs.Held.{item_carried};
ghost use Rattle.yd_entries.specs.Entries.{IsTakenOf, carried_of};
ghost use Rattle.yd_received.specs.Received.{is_below};
ghost use Rattle.yd_held.specs.Readiness.{missing_of, lack_of};

use yd_ids::{Id, Vector};
use yd_ops::{List, Parent, Run};
use yd_received::Entry;

/// What units at their client's clock lack: an origin of the first, or the item of the list that it
/// carries, which is not held. The later ones need the one before them and the same right origin,
/// and gone ones only the one before them.
/// It takes time with the logarithm of how many clients there are.
pub(crate) fn lack_of(runs: &[Run], vector: &Vector, entry: Entry) -> Option<Id>
    requires entry { IsTakenOf runs.now entry }
    requires at_clock { entry.id.clock ≡ clock_of vector.now entry.id.client.0 }
    ensures { result ≡ lack_of vector.now runs.now entry }
{
    if let Some(id) = missing_of(vector, entry.left, entry.id) {
        return Some(id);
    }
    if let Some(id) = missing_of(vector, entry.right, entry.id) {
        return Some(id);
    }
    missing_of(vector, first_item(runs, entry), entry.id)
}

/// The id, if there is one and it is not held.
fn missing_of(vector: &Vector, id: Option<Id>, next: Id) -> Option<Id>
    requires id { IfSome id IsId }
    requires next { next.clock ≡ clock_of vector.now next.client.0 }
    ensures { result ≡ missing_of vector.now id }
{
    let id = id?;
    if is_below(vector, id, next) {
        return None;
    }
    Some(id)
}

/// The id's clock is below its client's. The next id of one client is known.
fn is_below(vector: &Vector, id: Id, next: Id) -> bool
    requires id { IsId id }
    requires next { next.clock ≡ clock_of vector.now next.client.0 }
    ensures { result ≡ is_below vector.now id }
{
    // Mostly both are of one client.
    if id.client.0 == next.client.0 {
        return id.clock < next.clock;
    }
    id.clock < vector.get(id.client)
}

/// The item of the list that the first of the units carries.
pub(crate) fn first_item(runs: &[Run], entry: Entry) -> Option<Id>
    requires { IsTakenOf runs.now entry }
    ensures item { result ≡ item_carried (carried_of runs.now entry) }
    ensures is_id { IfSome result IsId }
{
    if entry.is_gone || entry.offset > 0 {
        return None;
    }
    item_in(&runs[entry.run].list)
}

/// The item that a list belongs to.
fn item_in(list: &Option<List>) -> Option<Id>
    ensures { result ≡ item_carried list.now }
{
    match list {
        None => None,
        Some(list) => item_of(&list.parent),
    }
}

/// The item that a parent is.
fn item_of(parent: &Parent) -> Option<Id>
    ensures { result ≡ item_of_parent parent.now }
{
    match parent {
        Parent::Root(_) => None,
        Parent::Item(id) => Some(*id),
    }
}
