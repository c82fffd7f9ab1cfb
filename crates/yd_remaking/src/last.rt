//! The last unit that is named and can be made again.

ghost use Rattle.std.specs.Prelude.{◌≡◌, None};
ghost use Rattle.yd_ids.specs.Id.{IsId, IsSpan};
ghost use Rattle.yd_state.specs.Lent.{units_left, IsWithin};
ghost use Rattle.yd_remaking.specs.Last.{named_or, last_named, last_in, last_made};

use crate::finding::can_make;
use yd_ids::{Id, IdSet};
use yd_state::{ListView, RunView};

/// The id of the last of the units still to come that is in a set and can be made again. It takes
/// time as reading the list by pieces does, and a look-up in the set for each unit.
pub fn last_made(view: ListView<'_>, named: &IdSet) -> Option<Id>
    ensures { result ≡ last_made named.now None (units_left view.entry) }
{
    let mut view = view;
    let mut last = None;
    while let Some(piece) = view.next() {
        last = last_in(&piece, named, last);
    }
    last
}

/// That of the units of a piece, and where there is none, what was before.
fn last_in(piece: &RunView<'_>, named: &IdSet, before: Option<Id>) -> Option<Id>
    requires { IsWithin piece.now }
    ensures { result ≡ last_in named.now before piece.now }
{
    if !can_make(piece.content) {
        return before;
    }
    last_named(named, piece.id, piece.len, before)
}

/// The last of so many ids in a row that is in a set, and where there is none, what was before.
fn last_named(named: &IdSet, first: Id, len: u64, before: Option<Id>) -> Option<Id>
    requires { IsSpan (record { client = first.client; clock = first.clock; len = len }) }
    ensures { result ≡ last_named named.now before first len }
{
    let mut at = first;
    let mut last = before;
    let mut left = len;
    while left > 0 {
        last = named_or(named, at, last);
        at.clock += 1;
        left -= 1;
    }
    last
}

/// An id where it is in a set, and else what was before.
fn named_or(named: &IdSet, id: Id, before: Option<Id>) -> Option<Id>
    requires { IsId id }
    ensures { result ≡ named_or named.now id before }
{
    if named.has(id) {
        return Some(id);
    }
    before
}
