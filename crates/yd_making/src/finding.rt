//! A unit of a list, and the one behind it.

ghost use Rattle.std.specs.Prelude.{◌≡◌, ◌<◌, ◌+◌, ◌≤◌, ◌++◌, slice_get, Some, Decides};
ghost use Rattle.yd_words.specs.Test.{is_some_and};
ghost use Rattle.yd_ids.specs.Id.{IsClock};
ghost use Rattle.yd_ops.specs.Operation.{units_of_content, later_id};
ghost use Rattle.yd_ops.specs.View.{content_value};
ghost use Rattle.yd_state.specs.Lent.{lent_units, units_left, units_of_view, IsWithin};
ghost use Rattle.yd_state.specs.State.{document_in};
ghost use Rattle.yd_ops.specs.Pairs.{is_high as is_high_half};
ghost use Rattle.yd_making.specs.Finding.{first_id, found_in, next_in, is_high_unit};

use yd_ids::Id;
use yd_ops::{Content, List};
use yd_state::{ListView, RunView, State};
use yd_units::Units;

/// A unit of a list.
#[derive(Clone, Copy)]
pub(crate) struct Found {
    /// It is the first half of a pair.
    pub is_high: bool,
    /// The unit that stands behind it, deleted or not.
    pub next: Option<Id>,
}

/// The first and the last of the numbers that are the first half of a pair.
const FIRST_HIGH: u16 = 0xD800;

const LAST_HIGH: u16 = 0xDBFF;

/// The first unit of a list, deleted or not.
pub(crate) fn first_of(state: &State, list: &List) -> Option<Id>
    ensures { result ≡ first_id (lent_units (document_in state.now) list.now) }
{
    let mut view = state.list(list);
    next_id(&mut view)
}

/// The unit with the id in a list, if it is one of the list's. It takes a bisection, and a look-up by
/// a hash.
pub(crate) fn find(state: &State, list: &List, id: Id) -> Option<Found>
    ensures { result ≡ found_in id (lent_units (document_in state.now) list.now) }
{
    // The view begins with the run that has the unit, or is empty.
    let mut view = state.list_from(list, id);
    while let Some(piece) = view.next() {
        if has_id(&piece, id) {
            return Some(found_at(&piece, id.clock - piece.id.clock, &mut view));
        }
    }
    None
}

/// The id is one of the piece's.
fn has_id(piece: &RunView<'_>, id: Id) -> bool
    ensures { Decides result ((id.client.0 ≡ piece.now.id.client.0) × (piece.now.id.clock ≤ id.clock)
        × (id.clock < piece.now.id.clock + piece.now.len)) }
{
    id.client.0 == piece.id.client.0
        && piece.id.clock <= id.clock
        && id.clock - piece.id.clock < piece.len
}

/// The unit so many behind the first of a piece, and the one behind it there or in what comes.
fn found_at(piece: &RunView<'_>, skipped: u64, view: &mut ListView<'_>) -> Found
    requires inside { skipped < piece.now.len }
    requires within { IsWithin piece.now }
    ensures { found_in (later_id piece.now.id skipped)
        (units_of_view piece.now ++ units_left view.old) ≡ Some result }
{
    // The length is in range, and so is each place.
    let _len = piece.content.len();
    Found {
        is_high: is_high_at(piece.content, piece.offset + skipped),
        next: next_behind(piece, skipped, view),
    }
}

/// The unit behind the one that is so many behind the first of a piece.
fn next_behind(piece: &RunView<'_>, skipped: u64, view: &mut ListView<'_>) -> Option<Id>
    requires inside { skipped < piece.now.len }
    requires ids { IsClock (piece.now.id.clock + piece.now.len) }
    ensures { result ≡ next_in piece.now skipped (units_left view.old) }
{
    if skipped + 1 < piece.len {
        return Some(Id {
            client: piece.id.client,
            clock: piece.id.clock + skipped + 1,
        });
    }
    next_id(view)
}

/// The id of the next unit that is still to come.
fn next_id(view: &mut ListView<'_>) -> Option<Id>
    ensures { result ≡ first_id (units_left view.old) }
{
    match view.next() {
        None => None,
        Some(piece) => Some(piece.id),
    }
}

/// The unit at a place of a content is the first half of a pair.
fn is_high_at(content: &Content, place: u64) -> bool
    ensures { result ≡ is_high_unit
        (slice_get (units_of_content (content_value content.now)) place) }
{
    match content {
        Content::Str(units) => is_high_in(units, place),
        _ => false,
    }
}

/// The unit at a place is the first half of a pair.
fn is_high_in(units: &Units, place: u64) -> bool
    ensures { result ≡ is_some_and is_high_half (slice_get units.now place) }
{
    match units.unit(place) {
        None => false,
        Some(unit) => is_high(unit),
    }
}

/// The number is the first half of a pair.
fn is_high(unit: u16) -> bool
    ensures { result ≡ is_high_half unit }
{
    FIRST_HIGH <= unit && unit <= LAST_HIGH
}
