//! The index of a position.

ghost use Rattle.std.specs.Prelude.{◌≡◌, IfOk, IfSome};
ghost use Rattle.yd_ops.specs.Valid.{IsParent};
ghost use Rattle.yd_ops.specs.declared.lists.Parent.TheVariants.{Root as OfRoot, Item as OfItem};
ghost use Rattle.yd_doc.specs.Kept.{own_document};
ghost use Rattle.yd_places.specs.Place.{end_of, place_of, place_of_unit, list_of_parent, whole_place};

use crate::counting::count_to;
use yd_doc::law::received_can_be_grouped;
use yd_doc::{NoMemory, Replica};
use yd_ids::Id;
use yd_ops::{List, Parent};
use yd_position::{Position, Target};

/// The list that a position is in, and its index there. For a unit this is the number of live counted
/// units before it, and one more where `assoc` is below 0 and the unit is live and counted. For a list
/// as a whole it is its length, or 0 where `assoc` is below 0. None where the unit is not held or is
/// lost, or where the id is none of a nested type (Yjs 13, createAbsolutePositionFromRelativePosition;
/// that units that were undone are not followed is own).
pub fn index_of(replica: &Replica, position: &Position) -> Result<Option<(List, u64)>, NoMemory>
    ensures place { IfOk result (λ place. place ≡ place_of replica.now position.now) }
    ensures in_range { IfOk result (λ place. IfSome place (λ both. IsParent both.0.parent)) }
{
    // What is received is looked at, since its lists are in range.
    received_can_be_grouped(replica);
    let place = place_of(replica, position)?;
    Ok(place)
}

/// The list that a position is in, and its index there.
fn place_of(replica: &Replica, position: &Position) -> Result<Option<(List, u64)>, NoMemory>
    ensures { IfOk result (λ place. place ≡ place_of replica.now position.now) }
{
    match &position.target {
        Target::Unit(id) => {
            let place = place_of_unit(replica, *id, position.assoc)?;
            Ok(place)
        }
        Target::Root(name) => match name.copy() {
            Err(_) => Err(NoMemory),
            Ok(name) => Ok(Some(whole_place(replica, Parent::Root(name), position.assoc))),
        },
        Target::Item(id) => {
            if !replica.has_type(*id) {
                return Ok(None);
            }
            Ok(Some(whole_place(replica, Parent::Item(*id), position.assoc)))
        }
    }
}

/// The list that a unit is in, and the index of a position that keeps to it.
fn place_of_unit(replica: &Replica, id: Id, assoc: i64) -> Result<Option<(List, u64)>, NoMemory>
    ensures { IfOk result (λ place. place ≡ place_of_unit replica.now id assoc) }
{
    match replica.list_of(id) {
        None => Ok(None),
        Some(list) => match list.copy() {
            Err(_) => Err(NoMemory),
            Ok(name) => Ok(Some((name, count_to(replica, list, id, assoc < 0)))),
        },
    }
}

/// The list of a parent, and its front or its end.
fn whole_place(replica: &Replica, parent: Parent, assoc: i64) -> (List, u64)
    ensures { result ≡ whole_place (own_document replica.now) parent assoc }
{
    let list = List { parent, key: None };
    let index = if assoc < 0 { 0 } else { replica.length(&list) };
    (list, index)
}
