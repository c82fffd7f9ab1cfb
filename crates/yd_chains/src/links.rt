//! The links of a place, and the ends of a chain.

ghost use Rattle.std.specs.Prelude.{◌≡◌};
ghost use Rattle.yd_chains.specs.Link.{no_link, no_ends};

use crate::named::Named;

/// The neighbours of a place in its chain. A place in no chain has none.
#[derive(Clone, Copy, Debug)]
pub struct Link {
    /// The number of its chain.
    pub chain: Named,
    /// The place before it.
    pub prev: Named,
    /// The place behind it.
    pub next: Named,
}

/// The ends of a chain.
#[derive(Clone, Copy, Debug)]
pub struct Ends {
    /// Its first place.
    pub first: Named,
    /// Its last place.
    pub last: Named,
}

/// The neighbours of a place in no chain.
pub fn no_link() -> Link
    ensures { result ≡ no_link }
{
    Link {
        chain: Named::none(),
        prev: Named::none(),
        next: Named::none(),
    }
}

/// The ends of an empty chain.
pub fn no_ends() -> Ends
    ensures { result ≡ no_ends }
{
    Ends {
        first: Named::none(),
        last: Named::none(),
    }
}
