//! The own client: its clock, and the setting of its state.

ghost use Rattle.std.specs.Prelude.{◌≡◌, ◌<◌, ◌↔◌, ◌-◌, ◌^◌, suc, true, is_some, nat_le, Some, Err, OnOk, OnErr};
ghost use Rattle.yd_sync.specs.Table.{AreRows, after_local, is_due, standing_in};
ghost use Rattle.yd_aware.specs.AwareTable.{after_renewal, is_clock_full, own_standing};
ghost use Rattle.yd_aware.specs.Rows.{is_seat_due};
ghost use Rattle.yd_aware.specs.declared.fault.AwareFault.TheVariants.{ClockFull};

use crate::ending::is_past;
use crate::fault::AwareFault;
use crate::rows::{Rows, put_seat, renew_seat, seat_of};
use crate::verdict::MOST_CLOCK;
use yd_any::Text;
use yd_ids::Client;
use yd_sync::{NoMemory, Seat};

/// So long after it was set the own state is due to be set again, in milliseconds.
const DUE_AFTER: u64 = 15_000;

/// The clock of a client, which is 0 where nothing is known of it.
fn clock_of(rows: &Rows, client: Client) -> u64
    ensures { result ≡ (standing_in rows.now.entries client.0).clock }
{
    match seat_of(rows, client.0) {
        None => 0,
        Some(seat) => seat.clock,
    }
}

/// Whether a client has a state.
fn has_state(rows: &Rows, client: Client) -> bool
    ensures { result ≡ is_some (standing_in rows.now.entries client.0).state }
{
    match seat_of(rows, client.0) {
        None => false,
        Some(seat) => seat.state.is_some(),
    }
}

/// Whether the own clock is the greatest.
pub(crate) fn is_full(rows: &Rows, own: Option<Client>) -> bool
    ensures { result ≡ is_clock_full own rows.now.entries }
{
    match own {
        None => false,
        Some(own) => clock_of(rows, own) >= MOST_CLOCK,
    }
}

/// Whether there is an own state that was set 15,000 ms or more before this moment.
pub(crate) fn is_due(rows: &Rows, own: Option<Client>, now: u64) -> bool
    ensures { result ≡ is_due own now rows.now.entries }
{
    match own {
        None => false,
        Some(own) => is_client_due(rows, own, now),
    }
}

fn is_client_due(rows: &Rows, own: Client, now: u64) -> bool
    ensures { result ≡ is_due (Some own) now rows.now.entries }
{
    match seat_of(rows, own.0) {
        None => false,
        Some(seat) => is_seat_due(seat, now),
    }
}

fn is_seat_due(seat: &Seat, now: u64) -> bool
    ensures { result ≡ is_seat_due now seat.now }
{
    seat.state.is_some() && is_past(seat.moment, DUE_AFTER, now)
}

/// Sets the own state at a moment.
pub(crate) fn set_own(
    rows: &mut Rows,
    own: Client,
    state: Option<Text>,
    now: u64,
) -> Result<(), AwareFault>
    ensures set { OnOk result (rows.new.entries ≡ after_local own state now rows.old.entries) }
    ensures full { (result ≡ Err ClockFull)
        ↔ (nat_le (2 ^ 53 - 1) (standing_in rows.old.entries own.0).clock ≡ true) }
    ensures fits { OnOk result (suc (standing_in rows.old.entries own.0).clock < 2 ^ 53) }
    ensures unchanged { OnErr result (rows.new.entries ≡ rows.old.entries) }
{
    let clock = clock_of(rows, own);
    if clock >= MOST_CLOCK {
        return Err(AwareFault::ClockFull);
    }
    let seat = Seat {
        clock: clock + 1,
        state,
        moment: now,
        source: 0,
    };
    match put_seat(rows, own.0, seat) {
        Ok(_) => Ok(()),
        Err(NoMemory) => Err(AwareFault::NoMemory),
    }
}

/// Sets the own state, where there is one, again at a moment.
pub(crate) fn renew_own(rows: &mut Rows, own: Client, now: u64) -> Result<(), AwareFault>
    requires { AreRows rows.old.entries }
    ensures renewed { OnOk result (rows.new.entries
        ≡ after_renewal (Some own) now rows.old.entries) }
    ensures full { (result ≡ Err ClockFull)
        ↔ (is_some (standing_in rows.old.entries own.0).state ≡ true)
        × (nat_le (2 ^ 53 - 1) (standing_in rows.old.entries own.0).clock ≡ true) }
    ensures fits { OnOk result (is_some (standing_in rows.old.entries own.0).state ≡ true
        → suc (standing_in rows.old.entries own.0).clock < 2 ^ 53) }
    ensures only_full { OnErr result (result ≡ Err ClockFull) }
    ensures unchanged { OnErr result (rows.new.entries ≡ rows.old.entries) }
{
    let is_stated = has_state(rows, own);
    if !is_stated {
        return Ok(());
    }
    let clock = clock_of(rows, own);
    if clock >= MOST_CLOCK {
        return Err(AwareFault::ClockFull);
    }
    renew_seat(rows, own.0, now);
    Ok(())
}
