//! Places between units: the unit before an index, and whether an index parts a pair.

ghost use Rattle.std.specs.Prelude.{◌≡◌, IfSome};
ghost use Rattle.yd_ids.specs.Id.{IsId};
ghost use Rattle.yd_ids.specs.Ids.{is_same};
ghost use Rattle.yd_ops.specs.Operation.{later_id};
ghost use Rattle.yd_editing.specs.TextEdit.{counted_units, place_at, parts_pair};
ghost use Rattle.yd_doc.specs.Kept.{own_document};
ghost use Rattle.yd_text.specs.Halves.{are_halves};

use yd_doc::Replica;
use yd_doc::law::received_is_sound;
use yd_ids::Id;
use yd_ops::List;

/// The live counted unit before the index, and none at the front.
pub(crate) fn place_at(replica: &Replica, list: &List, index: u64) -> Option<Id>
    ensures place { result ≡ place_at (counted_units (own_document replica.now) list.now) index }
    ensures in_range { IfSome result IsId }
{
    if index == 0 {
        return None;
    }
    replica.unit_at(list, index - 1)
}

/// The live counted units before the index and at it are the two halves of one pair.
pub(crate) fn parts_pair(replica: &Replica, list: &List, index: u64) -> bool
    ensures { result ≡ parts_pair (counted_units (own_document replica.now) list.now) index }
{
    // What is received is looked at, since its pairs are whole.
    received_is_sound(replica);
    let _view = replica.list(list);
    if index == 0 {
        return false;
    }
    let before = replica.unit_at(list, index - 1);
    let behind = replica.unit_at(list, index);
    are_halves(replica, list, before, behind)
}

/// The second unit is the one behind the first, which is the first half of a pair.
fn are_halves(replica: &Replica, list: &List, before: Option<Id>, behind: Option<Id>) -> bool
    ensures { result ≡ are_halves ((own_document replica.now).units list.now) before behind }
{
    match before {
        None => false,
        Some(high) => match behind {
            None => false,
            Some(low) => is_next(high, low) && replica.is_high(list, high),
        },
    }
}

/// The second id is the one behind the first.
fn is_next(id: Id, next: Id) -> bool
    ensures { result ≡ is_same next (later_id id 1) }
{
    next.client.0 == id.client.0 && next.clock > id.clock && next.clock - id.clock == 1
}
