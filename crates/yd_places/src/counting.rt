//! How many units of a list are counted up to one of them.

ghost use Rattle.std.specs.Prelude.{◌≡◌, ◌+◌, ◌≤◌, ◌<◌, Decides};
ghost use Rattle.yd_state.specs.Lent.{units_of_view, IsWithin};
ghost use Rattle.yd_doc.specs.Counted.{counted_ids, ids_from};
ghost use Rattle.yd_doc.specs.Kept.{own_document};
ghost use Rattle.yd_places.specs.Place.{count_to};
ghost use Rattle.yd_places.specs.Lent.{front_of, one_if};

use yd_doc::{Replica, counted_len};
use yd_ids::Id;
use yd_ops::List;
use yd_state::RunView;

/// How many live counted units of a list stand before the unit with the id; with that one, if it is
/// live and counted and is to be counted in. It takes time as reading the list by pieces does, up to
/// that unit, and copies nothing.
pub(crate) fn count_to(replica: &Replica, list: &List, id: Id, with_it: bool) -> u64
    ensures { result ≡ count_to (own_document replica.now) list.now with_it id }
{
    let mut view = replica.list(list);
    // The length is in range, and so is how many units are counted so far.
    let _units = replica.length(list);
    let mut count = 0;
    while let Some(piece) = view.next() {
        if has_id(&piece, id) {
            let before = id.clock - piece.id.clock;
            return count + front_len(&piece, before + one_if(with_it));
        }
        count += counted_len(&piece);
    }
    count
}

/// How many of so many first units of a piece are live and counted.
fn front_len(piece: &RunView<'_>, len: u64) -> u64
    requires within { IsWithin piece.now }
    requires inside { len ≤ piece.now.len }
    ensures ids { counted_ids (units_of_view (front_of piece.now len))
        ≡ ids_from piece.now.id result }
    ensures bound { result ≤ len }
{
    counted_len(&RunView { len, ..*piece })
}

/// How many units a unit is, where it is to be counted in.
fn one_if(with_it: bool) -> u64
    ensures { result ≡ one_if with_it }
{
    if with_it { 1 } else { 0 }
}

/// The id is one of the piece's.
fn has_id(piece: &RunView<'_>, id: Id) -> bool
    ensures { Decides result ((id.client.0 ≡ piece.now.id.client.0) × (piece.now.id.clock ≤ id.clock)
        × (id.clock < piece.now.id.clock + piece.now.len)) }
{
    id.client.0 == piece.id.client.0
        && piece.id.clock <= id.clock
        && id.clock - piece.id.clock < piece.len
}
