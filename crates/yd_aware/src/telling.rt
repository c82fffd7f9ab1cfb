//! What is told of a table: the entries of its rows.

ghost use Rattle.std.specs.Prelude.{◌≡◌, ◌∷◌, ◌++◌, [], Some, is_some, IfOk, OnOk};
ghost use Rattle.std.specs.Option.{option_copied};
ghost use Rattle.yd_sync.specs.Table.{entry_of, own_entry, states_of, where_so};
ghost use Rattle.yd_aware.specs.Rows.{seat_in, standing_of_seat};
ghost use Rattle.yd_aware.specs.Telling.{entry_of_client};

use crate::rows::{Rows, seat_of};
use std::alloc::Global;
use yd_any::Text;
use yd_ids::Client;
use yd_sync::{AwareEntry, AwareList, NoMemory, Seat};

/// The entries of all states, clients ascending.
pub(crate) fn states(alloc: Global, rows: &Rows) -> Result<AwareList, NoMemory>
    ensures { IfOk result (λ es. es ≡ states_of rows.now.entries) }
{
    let mut told = AwareList::new(alloc);
    for (client, seat) in rows {
        push_state(&mut told, *client, seat)?;
    }
    Ok(told)
}

/// Tells the state of a row, if it has one.
fn push_state(told: &mut AwareList, client: u64, seat: &Seat) -> Result<(), NoMemory>
    ensures { OnOk result (told.new
        ≡ told.old ++ where_so (is_some seat.now.state) (entry_of (client, seat.now))) }
{
    let Some(text) = &seat.state else {
        return Ok(());
    };
    let state = text.copy()?;
    told.push(AwareEntry {
        client: Client(client),
        clock: seat.clock,
        state: Some(state),
    })?;
    Ok(())
}

/// The own client's entry, where there is an own client.
pub(crate) fn own_entry(
    alloc: Global,
    rows: &Rows,
    own: Option<Client>,
) -> Result<AwareList, NoMemory>
    ensures { IfOk result (λ es. es ≡ own_entry own rows.now.entries) }
{
    match own {
        None => Ok(AwareList::new(alloc)),
        Some(own) => list_of(alloc, rows, own),
    }
}

fn list_of(alloc: Global, rows: &Rows, client: Client) -> Result<AwareList, NoMemory>
    ensures { IfOk result (λ es. es ≡ own_entry (Some client) rows.now.entries) }
{
    let mut told = AwareList::new(alloc);
    let entry = entry_for(rows, client)?;
    told.push(entry)?;
    Ok(told)
}

/// The entry of a client, of which nothing may be known.
fn entry_for(rows: &Rows, client: Client) -> Result<AwareEntry, NoMemory>
    ensures { IfOk result (λ e. e
        ≡ entry_of_client client (standing_of_seat (seat_in rows.now.entries client.0))) }
{
    match seat_of(rows, client.0) {
        None => Ok(AwareEntry {
            client,
            clock: 0,
            state: None,
        }),
        Some(seat) => entry_of_seat(client, seat),
    }
}

fn entry_of_seat(client: Client, seat: &Seat) -> Result<AwareEntry, NoMemory>
    ensures { IfOk result (λ e. e ≡ entry_of_client client (standing_of_seat (Some seat.now))) }
{
    let state = copy_of(&seat.state)?;
    Ok(AwareEntry {
        client,
        clock: seat.clock,
        state,
    })
}

fn copy_of(state: &Option<Text>) -> Result<Option<Text>, NoMemory>
    ensures { IfOk result (λ copy. copy ≡ state.now) }
{
    match state {
        None => Ok(None),
        Some(text) => Ok(Some(text.copy()?)),
    }
}

/// A state as it is lent.
pub(crate) fn lent(state: &Option<Text>) -> Option<&str>
    ensures { option_copied result ≡ state.now }
{
    match state {
        None => None,
        Some(text) => Some(text.as_str()),
    }
}
