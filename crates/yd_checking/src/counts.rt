//! How much is held, waits and is deleted.

ghost use Rattle.std.specs.Prelude.{◌≡◌};
ghost use Rattle.std.specs.List.{sum_by};
ghost use Rattle.yd_ids.specs.Set.{AreMaximal};
ghost use Rattle.yd_ids.specs.Vector.{IsVector};
ghost use Rattle.yd_meaning.specs.Collected.{held_count};
ghost use Rattle.yd_meaning.specs.Held.{count_of_ids, held_set};
ghost use Rattle.yd_state.specs.State.{received_in, document_in};
ghost use Rattle.yd_checking.specs.Counts.{counts_in, deleted_in, clock_reached};

use crate::lists::used_lists;
use yd_ids::{IdSet, Vector};
use yd_state::State;

/// The numbers of what was received.
#[derive(Clone, Copy, Debug, PartialEq, Eq)]
pub struct Counts {
    /// Units that are held.
    pub held: u128,
    /// Units that are received and not held.
    pub waiting: u128,
    /// Ids that are deleted by name and not held.
    pub waiting_deletes: u128,
    /// Held units that are deleted.
    pub deleted: u128,
    /// Lists that have a held unit. A lost unit is in no list.
    pub lists: usize,
}

/// The numbers of what a state received, with its own document (own). It takes a step for each client, for each part of a
/// run that was received, for each span of the delete set and for each list, and a look-up for each
/// span of deletions. It takes no memory, and walks no unit.
pub fn count(state: &State) -> Counts
    ensures { result ≡ counts_in (document_in state.now) (received_in state.now) }
{
    Counts {
        held: held_units(state),
        waiting: state.waiting_units(),
        waiting_deletes: state.waiting_ids(),
        deleted: deleted_ids(state),
        lists: used_lists(state),
    }
}

/// How many units are held: as many of each client as the state vector says.
fn held_units(state: &State) -> u128
    ensures { result ≡ held_count (received_in state.now) }
{
    // What is received is looked at, since it is in the order of writing.
    let _received = state.received();
    sum_of_clocks(state.vector())
}

/// The clocks of all clients, summed up.
fn sum_of_clocks(vector: &Vector) -> u128
    ensures sum { result ≡ sum_by clock_reached vector.now }
    ensures vector { IsVector vector.now }
{
    let mut sum: u128 = 0;
    for entry in vector.iter() {
        sum += entry.1 as u128;
    }
    sum
}

/// How many held units are deleted: as many as the delete set has ids, since each of them is held.
fn deleted_ids(state: &State) -> u128
    ensures { result ≡ deleted_in (document_in state.now)
        (held_set (received_in state.now).operations) }
{
    // What is received is looked at, since each id of the delete set is held.
    let _received = state.received();
    count_ids(state.deletes())
}

/// How many ids a set has.
fn count_ids(ids: &IdSet) -> u128
    ensures count { result ≡ count_of_ids ids.now }
    ensures maximal { AreMaximal ids.now }
{
    let mut count: u128 = 0;
    for span in ids.spans() {
        count += span.len as u128;
    }
    count
}
