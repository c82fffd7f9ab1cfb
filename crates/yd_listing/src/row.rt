//! The ends of places that stand in a row of a list.

ghost use Rattle.std.specs.Prelude.{◌≡◌, ◌<◌, ◌++◌, ◌∷◌, [], ℕ, List, Some};
ghost use Rattle.yd_words.specs.Member.{IsIn};
ghost use Rattle.yd_chains.specs.Chain.{behind};
ghost use Rattle.yd_arena.specs.Lists.{AreLists};
ghost use Rattle.yd_arena.specs.Arena.{count_of, places_in};
ghost use Rattle.yd_listing.specs.Lending.{IsRow, ends_of};

use yd_store::Store;

/// The first and the last of some places.
#[derive(Clone, Copy)]
pub struct Ends {
    /// The first place.
    pub first: usize,
    /// The last place.
    pub last: usize,
}

/// The ends of all places of a list. It takes a few steps.
pub(crate) fn all(store: &Store, list: usize) -> Option<Ends>
    requires { list < count_of store.now.placed }
    ensures { result ≡ ends_of (places_in store.now.placed list) }
{
    let first = store.first(list)?;
    let last = store.last(list)?;
    Some(Ends { first, last })
}

/// The ends of the places of a list from one on. It takes a few steps.
pub(crate) fn all_from(store: &Store, list: usize, first: usize) -> Option<Ends>
    requires list { list < count_of store.now.placed }
    requires place { IsIn first (places_in store.now.placed list) }
    ensures { result ≡ ends_of (first ∷ behind (Some first) (places_in store.now.placed list)) }
{
    let last = store.last(list)?;
    Some(Ends { first, last })
}

/// The ends of a row without its first place. It takes a few steps.
pub(crate) fn without_first(store: &Store, list: usize, ends: Ends) -> Option<Ends>
    requires list { list < count_of store.now.placed }
    requires sound { AreLists store.now.placed.linked }
    requires place { IsIn ends.first (places_in store.now.placed list) }
    ensures { (row : List ℕ) → IsRow store.now list (ends.first ∷ row) (Some ends)
        → IsRow store.now list row result }
{
    if ends.first == ends.last {
        return None;
    }
    let first = store.next(ends.first)?;
    Some(Ends {
        first,
        last: ends.last,
    })
}

/// The ends of a row without its last place. It takes a few steps.
pub(crate) fn without_last(store: &Store, list: usize, ends: Ends) -> Option<Ends>
    requires list { list < count_of store.now.placed }
    requires sound { AreLists store.now.placed.linked }
    requires place { IsIn ends.last (places_in store.now.placed list) }
    ensures { (row : List ℕ) → IsRow store.now list (row ++ ends.last ∷ []) (Some ends)
        → IsRow store.now list row result }
{
    if ends.first == ends.last {
        return None;
    }
    let last = store.prev(ends.last)?;
    Some(Ends {
        first: ends.first,
        last,
    })
}
