//! The past of units, as vectors.

ghost use Rattle.std.specs.Prelude.{◌≡◌, ◌<◌, ◌+◌, [], Some, false, true, length, replicate, set, slice_get, slice_index_or, IfOk, OnOk};
ghost use Rattle.yd_words.specs.Member.{IsIn};
ghost use Rattle.yd_ids.specs.Id.{IsClient, IsClock};
ghost use Rattle.yd_entries.specs.Entries.{is_held};
ghost use Rattle.yd_ops.specs.Received.{has_operation};
ghost use Rattle.yd_received.specs.Received.{held_of};
ghost use Rattle.yd_entries.specs.Taking.{is_covered};
ghost use Rattle.yd_honesty.specs.Dishonest.{is_past};
ghost use Rattle.yd_honesty.specs.Pasts.{is_told, IsHeldWhole, AreSound, ArePasts, AreClosed, OnlyPast};
ghost use Rattle.yd_honesty.specs.Pasts.{RaisesTo, Joins, NotesNeed, NotesNeeds, entry_needs, PassesEntry};

use crate::fault::NoMemory;
use crate::needs::needs_of;
use std::alloc::Global;
use yd_ids::{Client, Id, Vector};
use yd_received::{Entry, Place, Received};

/// The past of the first unit of each entry, as a vector; it is empty where the units wait. A later
/// unit's past has the units before it besides. Passes over all entries are made until nothing
/// changes: no more of them than there are clients, and one, as a past is reached from client to
/// client. It takes bytes with the entries times the clients.
pub fn pasts_of(alloc: Global, received: &Received) -> Result<Vec<Vector>, NoMemory>
    requires { IsHeldWhole received.now }
    ensures { IfOk result (λ pasts. ArePasts received.now pasts.items) }
{
    let mut pasts = no_pasts(alloc, received.entries().len())?;
    for _ in 0..u64::MAX {
        if !pass(alloc, received, &mut pasts)? {
            return Ok(pasts);
        }
    }
    // So many passes are never made.
    Err(NoMemory)
}

/// Whether an id is of the past of a held unit. It takes a bisection of the entries, and one of the
/// clients.
pub fn is_past(received: &Received, pasts: &[Vector], of: Id, other: Id) -> bool
    requires whole { IsHeldWhole received.now }
    requires pasts { ArePasts received.now pasts.now }
    requires held { has_operation (held_of received.now) of ≡ true }
    requires client { IsClient other.client }
    ensures { result ≡ is_past (held_of received.now) of other }
{
    is_told(&pasts[received.entry_of(of)], of, other)
}

/// The id is below the clocks, or a smaller clock of the unit's client.
fn is_told(past: &Vector, of: Id, other: Id) -> bool
    requires { IsClient other.client }
    ensures { result ≡ is_told past.now of other }
{
    other.clock < past.get(other.client) || other.client.0 == of.client.0 && other.clock < of.clock
}

/// So many empty vectors.
fn no_pasts(alloc: Global, count: usize) -> Result<Vec<Vector>, NoMemory>
    ensures { IfOk result (λ pasts. pasts.items ≡ replicate count []) }
{
    let mut pasts = Vec::new(alloc);
    for _ in 0..count {
        pasts.push(Vector::new(alloc))?;
    }
    Ok(pasts)
}

/// One pass over all entries: it says whether a past grew.
fn pass(alloc: Global, received: &Received, pasts: &mut Vec<Vector>) -> Result<bool, NoMemory>
    requires whole { IsHeldWhole received.now }
    requires sound { AreSound received.now pasts.old.items }
    ensures sound { OnOk result (AreSound received.now pasts.new.items) }
    ensures closed { IfOk result (λ grew. grew ≡ false → AreClosed received.now pasts.new.items) }
{
    let mut grew = false;
    for at in 0..received.entries().len() {
        if note_entry(alloc, received, pasts, at)? {
            grew = true;
        }
    }
    Ok(grew)
}

/// Notes what one entry needs, if it is held, and says whether its past grew.
fn note_entry(
    alloc: Global,
    received: &Received,
    pasts: &mut Vec<Vector>,
    at: usize,
) -> Result<bool, NoMemory>
    requires whole { IsHeldWhole received.now }
    requires sound { AreSound received.now pasts.old.items }
    requires inside { at < length received.now.entries }
    ensures { IfOk result (λ grew.
        PassesEntry received.now pasts.old.items pasts.new.items at grew) }
{
    let entry = received.entries().get(at);
    if !is_held(entry) {
        return Ok(false);
    }
    let grew = note_held(alloc, received, pasts, at, entry)?;
    Ok(grew)
}

/// Notes what the held units of the entry at a place need, and says whether their past grew.
fn note_held(
    alloc: Global,
    received: &Received,
    pasts: &mut Vec<Vector>,
    at: usize,
    entry: Entry,
) -> Result<bool, NoMemory>
    requires whole { IsHeldWhole received.now }
    requires sound { AreSound received.now pasts.old.items }
    requires there { slice_get received.now.entries at ≡ Some entry }
    requires held { is_held entry ≡ true }
    ensures { IfOk result (λ grew.
        PassesEntry received.now pasts.old.items pasts.new.items at grew) }
{
    let needs = needs_of(alloc, received, entry)?;
    let mut past = copy_at(pasts, at)?;
    let grew = note_needs(received, pasts, &mut past, entry, &needs)?;
    if !grew {
        return Ok(false);
    }
    put_at(pasts, at, past);
    Ok(true)
}

/// A copy of the vector at a place.
fn copy_at(pasts: &[Vector], at: usize) -> Result<Vector, NoMemory>
    requires { at < length pasts.now }
    ensures { IfOk result (λ past. past ≡ slice_index_or pasts.now at []) }
{
    let past = pasts[at].copy()?;
    Ok(past)
}

/// Puts a vector at a place.
fn put_at(pasts: &mut Vec<Vector>, at: usize, past: Vector)
    requires { at < length pasts.old.items }
    ensures { pasts.new.items ≡ set pasts.old.items at past }
{
    pasts[at] = past;
}

/// The units are held.
fn is_held(entry: Entry) -> bool
    ensures { result ≡ is_held entry }
{
    match entry.place {
        Place::Waits => false,
        _ => true,
    }
}

/// Notes all that the first of held units needs, with the past of each, and says whether that is
/// more than there was.
fn note_needs(
    received: &Received,
    pasts: &[Vector],
    past: &mut Vector,
    entry: Entry,
    needs: &[Id],
) -> Result<bool, NoMemory>
    requires whole { IsHeldWhole received.now }
    requires sound { AreSound received.now pasts.now }
    requires there { IsIn entry received.now.entries }
    requires held { is_held entry ≡ true }
    requires needs { needs.now ≡ entry_needs received.now entry }
    requires only { OnlyPast received.now entry past.old }
    ensures { IfOk result (λ grew.
        NotesNeeds received.now pasts.now entry needs.now past.old past.new grew) }
{
    let mut grew = false;
    for need in needs {
        if note_need(received, pasts, past, *need)? {
            grew = true;
        }
    }
    Ok(grew)
}

/// Notes an id with its past, and says whether that is more than there was.
fn note_need(
    received: &Received,
    pasts: &[Vector],
    past: &mut Vector,
    need: Id,
) -> Result<bool, NoMemory>
    requires size { length pasts.now ≡ length received.now.entries }
    requires covered { is_covered received.now.entries need ≡ true }
    requires client { IsClient need.client }
    requires clock { IsClock (need.clock + 1) }
    ensures { IfOk result (λ grew.
        NotesNeed received.now pasts.now need past.old past.new grew) }
{
    let raised = raise(past, need.client, need.clock + 1)?;
    let joined = join(past, &pasts[received.entry_of(need)])?;
    if joined {
        return Ok(true);
    }
    Ok(raised)
}

/// Joins a vector to another, and says whether it grew.
fn join(past: &mut Vector, other: &Vector) -> Result<bool, NoMemory>
    ensures { IfOk result (λ grew. Joins other.now past.old past.new grew) }
{
    let mut grew = false;
    for (client, clock) in other.iter() {
        if raise(past, client, clock)? {
            grew = true;
        }
    }
    Ok(grew)
}

/// Raises a client's clock, if it is lower, and says whether it was.
fn raise(past: &mut Vector, client: Client, clock: u64) -> Result<bool, NoMemory>
    requires client { IsClient client }
    requires clock { IsClock clock }
    ensures { IfOk result (λ grew. RaisesTo client.0 clock past.old past.new grew) }
{
    if clock <= past.get(client) {
        return Ok(false);
    }
    past.raise(client, clock)?;
    Ok(true)
}
