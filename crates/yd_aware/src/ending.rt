//! States that end: with time, or with the session that they came from.

ghost use Rattle.std.specs.Prelude.{◌≡◌, ◌+◌, ◌∷◌, ◌++◌, [], IfOk, OnOk, nat_le};
ghost use Rattle.yd_sync.specs.Table.{ended_of, where_so, emptied, entry_of};
ghost use Rattle.yd_aware.specs.Ending.{ended_each, ends};

use crate::rows::{Rows, end_state};
use crate::verdict::is_own;
use std::alloc::Global;
use yd_ids::Client;
use yd_sync::{AwareEntry, AwareList, NoMemory, Seat};

/// So long after it was taken a state of another ends, in milliseconds.
const OLD_AFTER: u64 = 30_000;

/// Which states end.
#[derive(Clone, Copy)]
pub(crate) enum Ending {
    /// Those of others than the own client that are old at this moment.
    Old(Option<Client>, u64),
    /// Those that came last from this source.
    From(u64),
}

/// The entries that tell which states end, clients ascending.
pub(crate) fn ended(alloc: Global, rows: &Rows, ending: Ending) -> Result<AwareList, NoMemory>
    ensures { IfOk result (λ es. es ≡ ended_of (ends ending) rows.now.entries) }
{
    let mut told = AwareList::new(alloc);
    for (client, seat) in rows {
        push_ended(&mut told, *client, seat, ending)?;
    }
    Ok(told)
}

/// Tells that the state of a row ends, if it does.
fn push_ended(
    told: &mut AwareList,
    client: u64,
    seat: &Seat,
    ending: Ending,
) -> Result<(), NoMemory>
    ensures { OnOk result (told.new ≡ told.old
        ++ where_so (ends ending (client, seat.now)) (entry_of (emptied (client, seat.now)))) }
{
    if !does_end(client, seat, ending) {
        return Ok(());
    }
    told.push(AwareEntry {
        client: Client(client),
        clock: seat.clock,
        state: None,
    })?;
    Ok(())
}

/// Whether the state of a row ends.
fn does_end(client: u64, seat: &Seat, ending: Ending) -> bool
    ensures { result ≡ ends ending (client, seat.now) }
{
    match ending {
        Ending::Old(own, now) => {
            !is_own(own, client) && seat.state.is_some() && is_past(seat.moment, OLD_AFTER, now)
        }
        Ending::From(source) => seat.source == source && seat.state.is_some(),
    }
}

/// Whether so long has passed since a moment, in milliseconds.
pub(crate) fn is_past(moment: u64, wait: u64, now: u64) -> bool
    ensures { result ≡ nat_le (moment + wait) now }
{
    moment <= now && now - moment >= wait
}

/// Ends the states of these clients.
pub(crate) fn end_each(rows: &mut Rows, ended: &[AwareEntry])
    ensures { rows.new.entries ≡ ended_each ended.now rows.old.entries }
{
    for entry in ended {
        end_state(rows, entry.client.0);
    }
}
