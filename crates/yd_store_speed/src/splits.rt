//! Runs that are split at random places.

ghost use Rattle.std.specs.Prelude.{◌≡◌, ◌<◌};
ghost use Rattle.yd_arena.specs.Arena.{count_of};

use crate::building::{id_of, type_runs};
use std::alloc::Global;
use std::time::{Clock, Duration, Instant};
use yd_ops::NoMemory;
use yd_store::Store;

/// The text of each run, of ten units.
const TEXT: &str = "abcdefghij";

/// The next random number.
fn next_random(seed: u64) -> u64 {
    seed.wrapping_mul(6364136223846793005)
        .wrapping_add(1442695040888963407)
}

/// How many runs there are, where so many of ten units each are split at as many random places.
pub(crate) fn splits(rt: &(impl Clock + AllocGlobal), count: u64) -> Option<(usize, Duration)> {
    let mut store = Store::new(rt.alloc());
    store.add_list().ok()?;
    type_runs(rt.alloc(), &mut store, count, TEXT, 10).ok()?;
    let start = Instant::now(rt).ok()?;
    split_all(&mut store, count).ok()?;
    let took = start.elapsed(rt).ok()?;
    Some((store.len(), took))
}

/// Splits the runs of client 1 at random places.
fn split_all(store: &mut Store, count: u64) -> Result<(), NoMemory> {
    let mut seed = 1;
    for _ in 0..count {
        seed = next_random(seed);
        let id = id_of(1, (seed >> 20) % count.saturating_mul(10).max(1));
        split_one(store, id.clock)?;
    }
    Ok(())
}

/// Splits a run of client 1 at one place.
fn split_one(store: &mut Store, clock: u64) -> Result<(), NoMemory> {
    let id = id_of(1, clock);
    if id.clock < store.next_clock(id.client) {
        store.split(id)?;
    }
    Ok(())
}

/// The same of a sorted vector of first clocks and places: each split adds an entry.
pub(crate) fn inserts(rt: &(impl Clock + AllocGlobal), count: u64) -> Option<(usize, Duration)> {
    let mut entries = Vec::new(rt.alloc());
    for place in 0..count {
        entries.push((place.wrapping_mul(10), place)).ok()?;
    }
    let start = Instant::now(rt).ok()?;
    insert_all(&mut entries, count).ok()?;
    let took = start.elapsed(rt).ok()?;
    Some((entries.len(), took))
}

/// Inserts entries at the same random places.
fn insert_all(entries: &mut Vec<(u64, u64)>, count: u64) -> Result<(), NoMemory> {
    let mut seed = 1;
    for _ in 0..count {
        seed = next_random(seed);
        insert_one(entries, (seed >> 20) % count.saturating_mul(10).max(1))?;
    }
    Ok(())
}

/// Inserts an entry, if there is none of this clock.
fn insert_one(entries: &mut Vec<(u64, u64)>, clock: u64) -> Result<(), NoMemory> {
    let at = entries.partition_point(|entry| entry.0 < clock);
    if at < entries.len() && entries[at].0 == clock {
        return Ok(());
    }
    let place = entries.len() as u64;
    entries.insert(at, (clock, place))?;
    Ok(())
}
