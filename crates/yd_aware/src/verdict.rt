//! What becomes of an entry that comes.

ghost use Rattle.std.specs.Prelude.{◌≡◌, is_some};
ghost use Rattle.std.specs.Option.{option_copied};
ghost use Rattle.yd_sync.specs.Table.{is_own};
ghost use Rattle.yd_aware.specs.Rows.{standing_of_seat};
ghost use Rattle.yd_aware.specs.Verdict.{verdict_by, verdict_of};

use yd_ids::Client;
use yd_sync::{AwareEntry, Seat};

/// The greatest clock.
pub(crate) const MOST_CLOCK: u64 = 9007199254740991;

/// What becomes of an entry.
pub(crate) enum Verdict {
    /// It is no news, or it can change nothing.
    Left,
    /// It would end the own state, and raises the own clock to this one instead.
    Raises(u64),
    /// It is taken.
    Taken,
}

/// What becomes of an entry, by what is held of its client.
pub(crate) fn verdict_of(own: Option<Client>, held: Option<&Seat>, entry: &AwareEntry) -> Verdict
    ensures { result ≡ verdict_of own (standing_of_seat (option_copied held.entry)) entry.now }
{
    match held {
        None => verdict_by(own, 0, false, entry),
        Some(seat) => verdict_by(own, seat.clock, seat.state.is_some(), entry),
    }
}

fn verdict_by(own: Option<Client>, clock: u64, has_state: bool, entry: &AwareEntry) -> Verdict
    ensures { result ≡ verdict_by own clock has_state entry.now }
{
    let ends = entry.state.is_none() && has_state;
    let is_news = clock < entry.clock || clock == entry.clock && ends;
    if !is_news {
        return Verdict::Left;
    }
    let ends_own = is_own(own, entry.client.0) && ends;
    if !ends_own {
        return Verdict::Taken;
    }
    if entry.clock < MOST_CLOCK {
        return Verdict::Raises(entry.clock + 1);
    }
    Verdict::Left
}

/// Whether the client is one's own.
pub(crate) fn is_own(own: Option<Client>, client: u64) -> bool
    ensures { result ≡ is_own own client }
{
    match own {
        None => false,
        Some(own) => own.0 == client,
    }
}
