//! The type that a unit is.

ghost use Rattle.std.specs.Prelude.{◌≡◌, ◌<◌, None, Some, length, IfSome, IfNone};
ghost use Rattle.yd_entries.specs.Entries.{is_listed_at};
ghost use Rattle.yd_state.specs.State.{received_in};
ghost use Rattle.yd_making.specs.Standing.{kind_where, kind_told, stands_in};

use yd_ids::Id;
use yd_ops::{Content, Kind, Run};
use yd_received::{Entry, Place};
use yd_state::State;

/// The kind of the nested type that the unit with the id is, deleted or not, and none where the id is
/// not held, or its unit is lost or no type. It takes time with the logarithm of how many parts of
/// runs there are.
pub fn kind_of(state: &State, id: Id) -> Option<&Kind>
    ensures found { IfSome result (λ kind.
        kind_where (stands_in (received_in state.now)) id ≡ Some kind.now) }
    ensures none { IfNone result (kind_where (stands_in (received_in state.now)) id ≡ None) }
{
    let received = state.received();
    let at = received.entry_at(id)?;
    kind_told(received.runs(), received.entries().get(at))
}

/// The kind that the entry's units are told to be. There is one unit then.
fn kind_told(runs: &[Run], entry: Entry) -> Option<&Kind>
    requires { entry.run < length runs.now }
    ensures found { IfSome result (λ kind. kind_told runs.now entry ≡ Some kind.now) }
    ensures none { IfNone result (kind_told runs.now entry ≡ None) }
{
    if !is_listed(entry.place) || entry.is_gone {
        return None;
    }
    match &runs[entry.run].content {
        Content::Nested(kind) => Some(kind),
        _ => None,
    }
}

/// Units at the place are in a list.
fn is_listed(place: Place) -> bool
    ensures { result ≡ is_listed_at place }
{
    match place {
        Place::In(_) => true,
        _ => false,
    }
}
