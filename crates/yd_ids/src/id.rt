//! Clients, ids, and spans of ids.

ghost use Rattle.std.specs.Prelude.{◌≡◌};
ghost use Rattle.yd_ids.specs.Ids.{is_same, is_smaller};

/// Who wrote: a number below 2^53.
#[derive(Clone, Copy, Debug, PartialEq, Eq, PartialOrd, Ord)]
pub struct Client(pub u64);

/// The id of one unit: its client, and its place among that client's units. Ids are in order of
/// their clients, then of their clocks.
#[derive(Clone, Copy, Debug, PartialEq, Eq, PartialOrd, Ord)]
pub struct Id {
    /// Who made the unit.
    pub client: Client,
    /// Which of the client's units it is, from 0.
    pub clock: u64,
}

/// Ids of one client in a row. The clock behind the last is below 2^53 too. Spans are in order of
/// their clients, then of their first clocks.
#[derive(Clone, Copy, Debug, PartialEq, Eq, PartialOrd, Ord)]
pub struct Span {
    /// Whose ids they are.
    pub client: Client,
    /// The clock of the first.
    pub clock: u64,
    /// How many there are.
    pub len: u64,
}

/// The two ids are one.
pub fn is_same(a: Id, b: Id) -> bool
    ensures { result ≡ is_same a b }
{
    a.client.0 == b.client.0 && a.clock == b.clock
}

/// The first has the smaller client, or of one client the smaller clock.
pub fn is_smaller(a: Id, b: Id) -> bool
    ensures { result ≡ is_smaller a b }
{
    a.client.0 < b.client.0 || a.client.0 == b.client.0 && a.clock < b.clock
}
