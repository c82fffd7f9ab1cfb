//! Runs, and how they go into the first list of a store.

ghost use Rattle.std.specs.Prelude.{◌≡◌, ◌<◌};
ghost use Rattle.yd_arena.specs.Arena.{count_of};

use std::alloc::Global;
use yd_ids::{Client, Id};
use yd_ops::{Content, NoMemory, Run};
use yd_store::Store;
use yd_units::Units;

/// The id of a client's unit.
pub(crate) fn id_of(client: u64, clock: u64) -> Id {
    Id {
        client: Client(client),
        clock,
    }
}

/// A run of a text.
pub(crate) fn run_of(alloc: Global, id: Id, left: Option<Id>, text: &str) -> Result<Run, NoMemory> {
    let content = Content::Str(Units::from_text(alloc, text)?);
    Ok(Run {
        id,
        left,
        right: None,
        list: None,
        content,
    })
}

/// The run of client 1 from this clock on, behind the unit before it.
pub(crate) fn next_run(alloc: Global, clock: u64, text: &str) -> Result<Run, NoMemory> {
    let left = if clock == 0 {
        None
    } else {
        Some(id_of(1, clock - 1))
    };
    run_of(alloc, id_of(1, clock), left, text)
}

/// Puts a run into the first list by its origins.
pub fn put(store: &mut Store, run: Run) -> Result<(), NoMemory>
    requires { 0 < count_of store.old.placed }
    ensures { count_of store.new.placed ≡ count_of store.old.placed }
{
    if !store.can_integrate(&run, 0) {
        return Ok(());
    }
    match store.integrate(run, 0) {
        Ok(_) => Ok(()),
        Err(_) => Err(NoMemory),
    }
}

/// Types so many runs of a text, which has as many units as is said, each behind the one before.
pub fn type_runs(
    alloc: Global,
    store: &mut Store,
    count: u64,
    text: &str,
    len: u64,
) -> Result<(), NoMemory>
    requires { 0 < count_of store.old.placed }
    ensures { count_of store.new.placed ≡ count_of store.old.placed }
{
    let mut clock = 0u64;
    for _ in 0..count {
        let run = next_run(alloc, clock, text)?;
        put(store, run)?;
        clock = clock.saturating_add(len);
    }
    Ok(())
}
