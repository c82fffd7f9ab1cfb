//! Rows by their clients, in a sorted tree. Each call takes time with the logarithm of their number.

ghost use Rattle.std.specs.Prelude.{◌≡◌, ◌<◌, ◌+◌, ◌^◌, suc, None, OnOk, OnErr, IfOk, IfSome};
ghost use Rattle.std.specs.Option.{option_copied, option_map};
ghost use Rattle.yd_sync.specs.Table.{raised, seated};
ghost use Rattle.yd_aware.specs.Rows.{changed, clock_where_stated, ended_at, renewed_seat, seat_in, standing_of_seat, without_row};

use std::collections::BTreeMap;
use yd_sync::{NoMemory, Seat};

/// What is known of each client.
pub(crate) type Rows = BTreeMap<u64, Seat>;

/// What is known of a client.
pub(crate) fn seat_of(rows: &Rows, client: u64) -> Option<&Seat>
    ensures { option_copied result ≡ seat_in rows.now.entries client }
{
    rows.get(&client)
}

/// Puts a seat in a client's place, and answers what stood there.
pub(crate) fn put_seat(rows: &mut Rows, client: u64, seat: Seat) -> Result<Option<Seat>, NoMemory>
    ensures was { IfOk result (λ was. was ≡ seat_in rows.old.entries client) }
    ensures put { OnOk result (rows.new.entries ≡ seated (client, seat) rows.old.entries) }
    ensures unchanged { OnErr result (rows.new.entries ≡ rows.old.entries) }
{
    let was = rows.insert(client, seat)?;
    Ok(was)
}

/// Puts a seat in the place of the one that a client has.
pub(crate) fn replace(rows: &mut Rows, client: u64, with: Seat)
    ensures { rows.new.entries ≡ changed client (λ seat. with) rows.old.entries }
{
    if let Some(seat) = rows.get_mut(&client) {
        *seat = with;
    }
}

/// Takes a client's row out.
pub(crate) fn remove(rows: &mut Rows, client: u64)
    ensures { rows.new.entries ≡ without_row client rows.old.entries }
{
    rows.remove(&client);
}

/// Gives a client that has a row another clock, and answers the one that it had.
pub(crate) fn raise(rows: &mut Rows, client: u64, clock: u64) -> Option<u64>
    ensures raised { rows.new.entries ≡ raised client clock rows.old.entries }
    ensures was { result ≡ option_map (λ seat. seat.clock) (seat_in rows.old.entries client) }
{
    let seat = rows.get_mut(&client)?;
    let was = seat.clock;
    seat.clock = clock;
    Some(was)
}

/// Ends a client's state, and answers the clock at which it ended.
pub(crate) fn end_state(rows: &mut Rows, client: u64) -> Option<u64>
    ensures ended { rows.new.entries ≡ ended_at client rows.old.entries }
    ensures clock { result
        ≡ clock_where_stated (standing_of_seat (seat_in rows.old.entries client)) }
{
    let seat = rows.get_mut(&client)?;
    if seat.state.is_none() {
        return None;
    }
    seat.state = None;
    Some(seat.clock)
}

/// Renews the seat that a client has, at a moment.
pub(crate) fn renew_seat(rows: &mut Rows, client: u64, now: u64)
    requires { IfSome (seat_in rows.old.entries client) (λ seat. seat.clock < 2 ^ 53) }
    ensures { rows.new.entries ≡ changed client (renewed_seat now) rows.old.entries }
{
    if let Some(seat) = rows.get_mut(&client) {
        seat.clock += 1;
        seat.moment = now;
        seat.source = 0;
    }
}
