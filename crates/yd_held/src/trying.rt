//! Which units are to be held next.

ghost use Rattle.std.specs.Prelude.{◌≡◌, ◌≢◌, ◌<◌, ◌≤◌, ◌++◌, [], false, length, drop, HoldsAt};
ghost use Rattle.std.specs.Prelude.{◌↔◌, IsTrue, OnOk, IfOk, MatchOption};
ghost use Rattle.yd_words.specs.Each.{Each};
ghost use Rattle.yd_ids.specs.declared.id.Client.{Client};
ghost use Rattle.yd_ids.specs.Vector.{clock_of};
ghost use Rattle.yd_ops.specs.declared.runs.Run.{Run};
ghost use Rattle.yd_entries.specs.declared.entry.Entry.{Entry};
ghost use Rattle.yd_ids.specs.Id.{IsId};
ghost use Rattle.yd_held.specs.Noted.{AreNoted, Finds, StayMissing};
ghost use Rattle.yd_words.specs.Member.{IsIn};
ghost use Rattle.yd_held.specs.Trying.{StandsLast, Tries, IsNext, AreWaiting};

use crate::fault::NoMemory;
use crate::finding::{Near, find_start};
use crate::noting::{Lack, note};
use crate::readiness::lack_of;
use std::alloc::Global;
use yd_ids::{Client, Id, Vector};
use yd_ops::Run;
use yd_received::{Entries, Received};

/// No client has this number or a greater one.
const CLIENTS_END: u64 = 1 << 53;

/// The clients of the runs from one on, each of a row of runs once.
pub(crate) fn clients_from(
    alloc: Global,
    runs: &[Run],
    from: usize,
) -> Result<Vec<Client>, NoMemory>
    requires { from ≤ length runs.now }
    ensures { IfOk result (λ clients.
        Each (λ (run : Run). IsIn run.id.client clients.items) (drop from runs.now)) }
{
    let mut clients = Vec::new(alloc);
    for run in &runs[from..] {
        try_client(&mut clients, run.id.client)?;
    }
    Ok(clients)
}

/// The clients of the entries, each of a row of entries once.
pub(crate) fn clients_of(alloc: Global, entries: &Entries) -> Result<Vec<Client>, NoMemory>
    ensures { IfOk result (λ clients.
        Each (λ (t : Entry). IsIn t.id.client clients.items) entries.now) }
{
    let mut clients = Vec::new(alloc);
    for entry in entries.iter() {
        try_client(&mut clients, entry.id.client)?;
    }
    Ok(clients)
}

/// Puts a client behind the others, unless it stands last.
fn try_client(clients: &mut Vec<Client>, client: Client) -> Result<(), NoMemory>
    ensures tries { OnOk result (Tries client clients.old.items clients.new.items) }
    ensures once { OnOk result (StandsLast client clients.old.items
        → clients.new.items ≡ clients.old.items) }
{
    if is_last(clients, client) {
        return Ok(());
    }
    clients.push(client)?;
    Ok(())
}

/// The client stands last.
fn is_last(clients: &[Client], client: Client) -> bool
    ensures { IsTrue result ↔ StandsLast client clients.now }
{
    match clients.last() {
        None => false,
        Some(last) => last.0 == client.0,
    }
}

/// The place of units that have all that they need, and are the next of a client that is to be tried.
/// Those that lack something are noted by it. It looks behind the place that is near first.
pub(crate) fn next_ready(
    received: &Received,
    vector: &Vector,
    lacks: &mut Vec<Lack>,
    tries: &mut Vec<Client>,
    near: Near,
) -> Result<Option<usize>, NoMemory>
    requires waiting { AreWaiting vector.now received.now.entries }
    requires noted { AreNoted vector.now received.now.runs lacks.old.items tries.old.items
        received.now.entries }
    ensures finds { IfOk result (Finds vector.now received.now.runs received.now.entries
        lacks.new.items tries.new.items) }
    ensures missing { OnOk result (StayMissing vector.now lacks.old.items
        vector.now lacks.new.items) }
{
    let entries = received.entries();
    while let Some(client) = tries.pop() {
        if let Some(at) = next_of(received, vector, client, near) {
            let entry = entries.get(at);
            match lack_of(received.runs(), vector, entry) {
                None => return Ok(Some(at)),
                Some(id) => note(lacks, Lack { id, client })?,
            }
        }
    }
    Ok(None)
}

/// The place of the units at the client's clock, and none where they were not received. It takes time
/// with the logarithm of how many entries there are, where they do not stand behind the place that is near.
fn next_of(received: &Received, vector: &Vector, client: Client, near: Near) -> Option<usize>
    requires { Each (λ t. IsId t.id) received.now.entries }
    ensures { MatchOption result
        (Each (λ t. IsNext vector.now client t → ⊥) received.now.entries)
        (λ at. (at < length received.now.entries)
        × HoldsAt (IsNext vector.now client) received.now.entries at) }
{
    if client.0 >= CLIENTS_END {
        return None;
    }
    let id = Id {
        client,
        clock: vector.get(client),
    };
    find_start(received, id, near)
}
