//! The list that a unit is in.

ghost use Rattle.std.specs.Prelude.{◌≡◌, None, Some, true, slice_get, IfSome, IfNone, Decides};
ghost use Rattle.yd_entries.specs.Taking.{is_covered};
ghost use Rattle.yd_state.specs.State.{received_in};
ghost use Rattle.yd_making.specs.Standing.{list_where, IsPlaceOf, IsReached, stands_in};

use yd_ids::Id;
use yd_ops::List;
use yd_received::{Place, Received};
use yd_state::State;

/// How many numbers of clients there are.
const CLIENTS: u64 = 1 << 53;

/// The list that the unit with the id is in, deleted or not, and none where the id is not held, or
/// its unit is lost. It takes time with the logarithm of how many parts of runs there are.
pub fn list_of(state: &State, id: Id) -> Option<&List>
    ensures found { IfSome result (λ list.
        list_where (stands_in (received_in state.now)) id ≡ Some list.now) }
    ensures none { IfNone result (list_where (stands_in (received_in state.now)) id ≡ None) }
{
    let received = state.received();
    if !is_reached(state, id) {
        return None;
    }
    match place_of(received, id) {
        Place::In(number) => name_at(state.names(), number),
        _ => None,
    }
}

/// The name with a number, where there is one.
fn name_at(names: &[List], number: usize) -> Option<&List>
    ensures found { IfSome result (λ name. slice_get names.now number ≡ Some name.now) }
    ensures none { IfNone result (slice_get names.now number ≡ None) }
{
    names.get(number)
}

/// The id is below its client's clock, so that it is held.
fn is_reached(state: &State, id: Id) -> bool
    ensures { Decides result (IsReached (received_in state.now) id) }
{
    id.client.0 < CLIENTS && id.clock < state.vector().get(id.client)
}

/// Where the entry stands that has the id.
fn place_of(received: &Received, id: Id) -> Place
    requires { is_covered received.now.entries id ≡ true }
    ensures { IsPlaceOf received.now id result }
{
    received.entries().get(received.entry_of(id)).place
}
