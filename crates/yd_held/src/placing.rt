//! The place of units that become held: lost, or in a list.

ghost use Rattle.std.specs.Prelude.{◌≡◌, true, IfSome, IfOk};
ghost use Rattle.yd_entries.specs.Entries.{IsTakenOf, GrowBy};
ghost use Rattle.yd_entries.specs.Taking.{is_covered};
ghost use Rattle.yd_held.specs.Numbering.{PlacesEntry};
ghost use Rattle.yd_held.specs.Placed.{AreOriginsCovered};
ghost use Rattle.yd_held.specs.Stand.{stand_of, stand_for, joined, is_lost};

use crate::fault::NoMemory;
use crate::finding::{Near, find};
use crate::numbering::number_carried;
use crate::readiness::first_item;
use yd_ids::Id;
use yd_names::Names;
use yd_received::{Entry, Place, Received};

/// Where an id stands that is held, if there is one.
#[derive(Clone, Copy)]
enum Stand {
    /// There is none.
    Absent,
    /// It is in no list.
    Lost,
    /// It is in the list with a number.
    In(usize),
}

/// The place of units that become held, whose origins are held. They are lost where they are gone,
/// or where an origin of theirs or the item of the list that they carry is lost. So it is for all
/// units of an entry: each later one has the one before as its left origin, and the right origin of
/// the first. Else they are in the list of the left origin, or of the right one, or in the one that
/// they carry. A list whose name is new is added at the end.
pub(crate) fn place_for(
    received: &Received,
    names: &mut Names,
    entry: Entry,
    near: &mut Near,
) -> Result<Place, NoMemory>
    requires entry { IsTakenOf received.now.runs entry }
    requires held { AreOriginsCovered received.now entry }
    ensures place { IfOk result (PlacesEntry received.now names.old names.new entry) }
    ensures grows { GrowBy names.old names.new }
{
    match stand_for(received, entry, near) {
        Stand::Lost => Ok(Place::Lost),
        Stand::In(number) => Ok(Place::In(number)),
        Stand::Absent => {
            let number = number_carried(received.runs(), names, entry)?;
            Ok(Place::In(number))
        }
    }
}

/// Where units stand when they are held, as far as their origins and the item of their list tell.
fn stand_for(received: &Received, entry: Entry, near: &mut Near) -> Stand
    requires entry { IsTakenOf received.now.runs entry }
    requires held { AreOriginsCovered received.now entry }
    ensures { result ≡ stand_for received.now entry }
{
    if entry.is_gone {
        return Stand::Lost;
    }
    let left = stand_of(received, entry.left, near);
    let right = stand_of(received, entry.right, near);
    let item = stand_of(received, first_item(received.runs(), entry), near);
    // The next units often have the same right origin.
    near.second = near.first;
    joined(left, right, item)
}

/// Where an id stands, if there is one. It looks near, and then what is near is its entry.
fn stand_of(received: &Received, id: Option<Id>, near: &mut Near) -> Stand
    requires { IfSome id (λ x. is_covered received.now.entries x ≡ true) }
    ensures { result ≡ stand_of received.now.entries id }
{
    let Some(id) = id else {
        return Stand::Absent;
    };
    near.first = find(received, id, *near);
    match received.entries().get(near.first).place {
        Place::In(number) => Stand::In(number),
        _ => Stand::Lost,
    }
}

/// Where units stand, by where their origins and the item of their list do.
fn joined(left: Stand, right: Stand, item: Stand) -> Stand
    ensures { result ≡ joined left right item }
{
    if is_lost(left) || is_lost(right) || is_lost(item) {
        return Stand::Lost;
    }
    match left {
        Stand::Absent => right,
        _ => left,
    }
}

/// The id is in no list.
fn is_lost(stand: Stand) -> bool
    ensures { result ≡ is_lost stand }
{
    match stand {
        Stand::Lost => true,
        _ => false,
    }
}
