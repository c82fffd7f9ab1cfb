//! Entries, taken one after another, and all put back where memory ends.

ghost use Rattle.std.specs.Prelude.{◌≡◌, ◌<◌, ◌∷◌, ◌++◌, [], OnOk, OnErr, IfOk, vec_len, vec_capacity};
ghost use Rattle.yd_words.specs.Each.{Each};
ghost use Rattle.yd_sync.specs.Table.{AreRows, after_entries, after_entry, is_taken, raised, row_of, seated, taken_of, where_so};
ghost use Rattle.yd_aware.specs.Undoing.{restored, undone, was_of};

use crate::rows::{Rows, put_seat, raise, remove, replace, seat_of};
use crate::verdict::{Verdict, verdict_of};
use std::alloc::Global;
use yd_ids::Client;
use yd_sync::{AwareEntry, AwareList, NoMemory, Seat};

/// When entries came, in milliseconds, and from which session.
#[derive(Clone, Copy)]
pub(crate) struct Arrival {
    pub moment: u64,
    pub source: u64,
}

/// What a client had before a change.
#[derive(Drop)]
pub(crate) enum Was {
    /// Nothing.
    Absent,
    /// This seat.
    Seated(Seat),
    /// The seat that it has, but at this clock.
    At(u64),
}

/// A change of one row.
#[derive(Drop)]
pub(crate) struct Change {
    client: u64,
    was: Was,
}

/// Takes entries in order, and answers those that were taken. Where memory ends all changes are
/// undone.
pub(crate) fn take_all(
    alloc: Global,
    rows: &mut Rows,
    own: Option<Client>,
    entries: &[AwareEntry],
    arrival: Arrival,
) -> Result<AwareList, NoMemory>
    requires { AreRows rows.old.entries }
    ensures after { OnOk result (rows.new.entries
        ≡ after_entries own arrival.moment arrival.source entries.now rows.old.entries) }
    ensures taken { IfOk result (λ taken. taken
        ≡ taken_of own arrival.moment arrival.source entries.now rows.old.entries) }
    ensures unchanged { OnErr result (rows.new.entries ≡ rows.old.entries) }
{
    let mut taken = AwareList::new(alloc);
    let mut changes = Vec::new(alloc);
    for entry in entries {
        match take_entry(rows, own, entry, arrival, &mut taken, &mut changes) {
            Ok(()) => {}
            Err(NoMemory) => {
                put_back(rows, changes);
                return Err(NoMemory);
            }
        }
    }
    Ok(taken)
}

fn take_entry(
    rows: &mut Rows,
    own: Option<Client>,
    entry: &AwareEntry,
    arrival: Arrival,
    taken: &mut AwareList,
    changes: &mut Vec<Change>,
) -> Result<(), NoMemory>
    requires { AreRows rows.old.entries }
    ensures after { OnOk result (rows.new.entries
        ≡ after_entry own arrival.moment arrival.source entry.now rows.old.entries) }
    ensures taken { OnOk result (taken.new
        ≡ taken.old ++ where_so (is_taken own rows.old.entries entry.now) entry.now) }
    ensures kept { restored changes.new.items rows.new.entries
        ≡ restored changes.old.items rows.old.entries }
{
    match verdict_of(own, seat_of(rows, entry.client.0), entry) {
        Verdict::Left => Ok(()),
        Verdict::Raises(clock) => raise_own(rows, entry.client.0, clock, changes),
        Verdict::Taken => seat_entry(rows, entry, arrival, taken, changes),
    }
}

/// Raises the own clock, and notes the one that was.
fn raise_own(
    rows: &mut Rows,
    client: u64,
    clock: u64,
    changes: &mut Vec<Change>,
) -> Result<(), NoMemory>
    ensures raised { OnOk result (rows.new.entries ≡ raised client clock rows.old.entries) }
    ensures kept { restored changes.new.items rows.new.entries
        ≡ restored changes.old.items rows.old.entries }
{
    changes.reserve(1)?;
    if let Some(was) = raise(rows, client, clock) {
        note(
            changes,
            Change {
                client,
                was: Was::At(was),
            },
        );
    }
    Ok(())
}

/// Gives an entry its place, and notes what stood there.
fn seat_entry(
    rows: &mut Rows,
    entry: &AwareEntry,
    arrival: Arrival,
    taken: &mut AwareList,
    changes: &mut Vec<Change>,
) -> Result<(), NoMemory>
    requires { AreRows rows.old.entries }
    ensures seated { OnOk result (rows.new.entries
        ≡ seated (row_of arrival.moment arrival.source entry.now) rows.old.entries) }
    ensures taken { OnOk result (taken.new ≡ taken.old ++ entry.now ∷ []) }
    ensures kept { restored changes.new.items rows.new.entries
        ≡ restored changes.old.items rows.old.entries }
{
    let seat = seat_for(entry, arrival)?;
    taken.push(entry.copy()?)?;
    changes.reserve(1)?;
    let client = entry.client.0;
    let was = was_of(put_seat(rows, client, seat)?);
    note(changes, Change { client, was });
    Ok(())
}

/// What a client had, by the seat that stood there.
fn was_of(seat: Option<Seat>) -> Was
    ensures { result ≡ was_of seat }
{
    match seat {
        None => Was::Absent,
        Some(seat) => Was::Seated(seat),
    }
}

/// The seat that an entry makes.
fn seat_for(entry: &AwareEntry, arrival: Arrival) -> Result<Seat, NoMemory>
    ensures { IfOk result (λ seat. (entry.now.client.0, seat)
        ≡ row_of arrival.moment arrival.source entry.now) }
{
    let copy = entry.copy()?;
    Ok(Seat {
        clock: copy.clock,
        state: copy.state,
        moment: arrival.moment,
        source: arrival.source,
    })
}

/// Notes a change, for which there is room.
fn note(changes: &mut Vec<Change>, change: Change)
    requires { vec_len changes.old < vec_capacity changes.old }
    ensures { changes.new.items ≡ changes.old.items ++ change ∷ [] }
{
    let _ = changes.push(change);
}

/// Undoes changes, from the last to the first.
fn put_back(rows: &mut Rows, mut changes: Vec<Change>)
    ensures { rows.new.entries ≡ restored changes.items rows.old.entries }
{
    while let Some(change) = changes.pop() {
        undo(rows, change);
    }
}

fn undo(rows: &mut Rows, change: Change)
    ensures { rows.new.entries ≡ undone change rows.old.entries }
{
    let Change { client, was } = change;
    match was {
        Was::Absent => remove(rows, client),
        Was::Seated(seat) => replace(rows, client, seat),
        Was::At(clock) => {
            raise(rows, client, clock);
        }
    }
}
