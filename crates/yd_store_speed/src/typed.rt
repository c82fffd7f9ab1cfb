//! Runs that are typed in order, and the walk over them.

ghost use Rattle.std.specs.Prelude.{◌≡◌, ◌<◌};
ghost use Rattle.yd_arena.specs.Arena.{count_of};

use crate::building::{next_run, type_runs};
use std::alloc::Global;
use std::time::{Clock, Duration, Instant};
use yd_ops::{NoMemory, Run};
use yd_store::Store;

/// How many runs there are, where so many of one unit each are typed.
pub(crate) fn typed(rt: &(impl Clock + AllocGlobal), count: u64) -> Option<(usize, Duration)> {
    let mut store = Store::new(rt.alloc());
    store.add_list().ok()?;
    let start = Instant::now(rt).ok()?;
    type_runs(rt.alloc(), &mut store, count, "a", 1).ok()?;
    let took = start.elapsed(rt).ok()?;
    Some((store.len(), took))
}

/// The same runs, pushed to a vector.
pub(crate) fn pushed(rt: &(impl Clock + AllocGlobal), count: u64) -> Option<(usize, Duration)> {
    let mut runs = Vec::new(rt.alloc());
    let start = Instant::now(rt).ok()?;
    push_runs(rt.alloc(), &mut runs, count).ok()?;
    let took = start.elapsed(rt).ok()?;
    Some((runs.len(), took))
}

/// Pushes runs of one unit each.
fn push_runs(alloc: Global, runs: &mut Vec<Run>, count: u64) -> Result<(), NoMemory> {
    for clock in 0..count {
        runs.push(next_run(alloc, clock, "a")?)?;
    }
    Ok(())
}

/// How many units there are in a list of so many runs, by a walk over them.
pub(crate) fn walk(rt: &(impl Clock + AllocGlobal), count: u64) -> Option<(usize, Duration)> {
    let mut store = Store::new(rt.alloc());
    store.add_list().ok()?;
    type_runs(rt.alloc(), &mut store, count, "a", 1).ok()?;
    let start = Instant::now(rt).ok()?;
    let units = units_of(&store);
    let took = start.elapsed(rt).ok()?;
    Some((units, took))
}

/// The units of the first list.
fn units_of(store: &Store) -> usize
    requires { 0 < count_of store.now.placed }
{
    let mut units = 0usize;
    let mut at = store.first(0);
    for _ in 0..store.len() {
        let Some(place) = at else {
            break;
        };
        if place >= store.len() {
            break;
        }
        if let Some(run) = store.run_of(place) {
            units = units.wrapping_add(run.len() as usize);
        }
        at = store.next(place);
    }
    units
}

/// The same of a vector of these runs.
pub(crate) fn pass(rt: &(impl Clock + AllocGlobal), count: u64) -> Option<(usize, Duration)> {
    let mut runs = Vec::new(rt.alloc());
    push_runs(rt.alloc(), &mut runs, count).ok()?;
    let start = Instant::now(rt).ok()?;
    let units = units_in(&runs);
    let took = start.elapsed(rt).ok()?;
    Some((units, took))
}

/// The units of runs.
fn units_in(runs: &[Run]) -> usize {
    let mut units = 0usize;
    for run in runs {
        units = units.wrapping_add(run.len() as usize);
    }
    units
}
