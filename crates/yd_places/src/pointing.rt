//! Positions, made at an index.

ghost use Rattle.std.specs.Prelude.{◌≡◌, None, IfOk, IfErr, IfSome, OnOk};
ghost use Rattle.yd_ids.specs.Id.{IsId};
ghost use Rattle.yd_ops.specs.Valid.{IsParent};
ghost use Rattle.yd_editing.specs.TextEdit.{counted_units, end_refusal};
ghost use Rattle.yd_making.specs.Steps.{IsCause};
ghost use Rattle.yd_making.specs.declared.fault.EditFault.TheVariants.{NoMemory as NoRoom};
ghost use Rattle.yd_doc.specs.Kept.{own_document};
ghost use Rattle.yd_position.specs.Writing.{HasIds};
ghost use Rattle.yd_places.specs.Place.{position_of, target_of_parent, unit_near};

use std::alloc::Global;
use yd_doc::{EditFault, Replica};
use yd_ids::Id;
use yd_ops::{List, Parent};
use yd_position::{Position, Target};

/// The position at an index of a list, from 0, counted as `Replica::length` does. With an `assoc` of 0
/// or more it keeps to the unit behind the index, and at the end to the list. With one below 0 it
/// keeps to the unit before the index, and at the front to the list. `PastEnd` with the length, where
/// the index is past it. The list has no key (Yjs 13, createRelativePositionFromTypeIndex).
pub fn position_at(
    alloc: Global,
    replica: &Replica,
    list: &List,
    index: u64,
    assoc: i64,
) -> Result<Position, EditFault>
    ensures made { IfOk result (λ position. position
        ≡ position_of (own_document replica.now) list.now index assoc) }
    ensures ids { IsParent list.now.parent
        → IfOk result (λ position. HasIds position.target) }
    ensures accepted { OnOk result
        (end_refusal (counted_units (own_document replica.now) list.now) index ≡ None) }
    ensures refused { IfErr result (λ fault. IsCause fault
        (end_refusal (counted_units (own_document replica.now) list.now) index)) }
{
    let length = replica.length(list);
    if index > length {
        return Err(EditFault::PastEnd(length));
    }
    match unit_near(replica, list, index, assoc) {
        Some(id) => Ok(Position {
            target: Target::Unit(id),
            assoc,
        }),
        None => {
            let target = target_of(&list.parent)?;
            Ok(Position { target, assoc })
        }
    }
}

/// The unit that a position at an index keeps to.
fn unit_near(replica: &Replica, list: &List, index: u64, assoc: i64) -> Option<Id>
    ensures unit { result ≡ unit_near (counted_units (own_document replica.now) list.now) index assoc }
    ensures in_range { IfSome result IsId }
{
    if assoc >= 0 {
        return replica.unit_at(list, index);
    }
    if index == 0 {
        return None;
    }
    replica.unit_at(list, index - 1)
}

/// The list of a parent as a whole.
fn target_of(parent: &Parent) -> Result<Target, EditFault>
    ensures made { IfOk result (λ target. target ≡ target_of_parent parent.now) }
    ensures memory { IfErr result (λ fault. fault ≡ NoRoom) }
{
    match parent {
        Parent::Root(name) => match name.copy() {
            Err(_) => Err(EditFault::NoMemory),
            Ok(name) => Ok(Target::Root(name)),
        },
        Parent::Item(id) => Ok(Target::Item(*id)),
    }
}
