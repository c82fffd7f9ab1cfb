//! Where a unit stands in a list.

ghost use Rattle.std.specs.Prelude.{◌≡◌, ◌<◌, ℕ, IfSome, IfNone, Some, true, false};
ghost use Rattle.yd_arena.specs.Arena.{count_of};
ghost use Rattle.yd_store.specs.Store.{StandsIn};
ghost use Rattle.yd_listing.specs.Lending.{StandsAt, StandsBefore};

use yd_ids::Id;
use yd_store::Store;

/// The place in a list of the run with a unit, and none where the unit does not stand in it. It takes
/// a bisection.
pub(crate) fn place_in(store: &Store, list: usize, id: Id) -> Option<usize>
    requires { list < count_of store.now.placed }
    ensures there { IfSome result (StandsAt store.now list id) }
    ensures none { IfNone result (StandsIn store.now.placed list id → ⊥) }
{
    store.is_sound();
    let found = store.find(id)?;
    if is_number(store.list_of(found.place), list) {
        return Some(found.place);
    }
    None
}

/// The place in a list before that of the run with a unit. There is none where that run is the first,
/// or the unit does not stand in the list. It takes a bisection.
pub(crate) fn place_before(store: &Store, list: usize, id: Id) -> Option<usize>
    requires { list < count_of store.now.placed }
    ensures { IfSome result (StandsBefore store.now list id) }
{
    store.is_sound();
    let place = place_in(store, list, id)?;
    store.prev(place)
}

/// There is a number, and it is this one.
fn is_number(number: Option<usize>, other: usize) -> bool
    ensures same { result ≡ true → number ≡ Some other }
    ensures apart { result ≡ false → number ≡ Some other → ⊥ }
{
    match number {
        None => false,
        Some(number) => number == other,
    }
}
