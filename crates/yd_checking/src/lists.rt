//! How many lists have a held unit.

ghost use Rattle.std.specs.Prelude.{◌≡◌, ◌<◌, Some, None, length, slice_get, IfSome, IfNone};
ghost use Rattle.yd_state.specs.State.{received_in, document_in};
ghost use Rattle.yd_checking.specs.Counts.{list_count, is_used};

use yd_ops::List;
use yd_state::State;

/// How many lists have a held unit. It takes a step for each list that has a name.
pub(crate) fn used_lists(state: &State) -> usize
    ensures { result ≡ list_count (received_in state.now) }
{
    // What is received is looked at, since no two names of its lists are one.
    let _received = state.received();
    let names = state.names();
    let mut count = 0;
    for n in 0..names.len() {
        if has_units(state, n) {
            count += 1;
        }
    }
    count
}

/// The list with a number has a unit.
fn has_units(state: &State, n: usize) -> bool
    requires { n < length state.now.held.names }
    ensures { IfSome (slice_get state.now.held.names n)
        (λ name. result ≡ is_used (document_in state.now) name) }
{
    match name_at(state.names(), n) {
        Some(name) => state.last_of(name).is_some(),
        None => false,
    }
}

/// The name with a number, where there is one.
fn name_at(names: &[List], n: usize) -> Option<&List>
    ensures found { IfSome result (λ name. slice_get names.now n ≡ Some name.now) }
    ensures none { IfNone result (slice_get names.now n ≡ None) }
{
    names.get(n)
}
