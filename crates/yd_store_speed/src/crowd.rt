//! Runs of many clients at one place.

ghost use Rattle.std.specs.Prelude.{◌≡◌, ◌<◌};
ghost use Rattle.yd_arena.specs.Arena.{count_of};

use crate::building::{id_of, put, run_of};
use std::alloc::Global;
use std::time::{Clock, Duration, Instant};
use yd_ids::Id;
use yd_ops::NoMemory;
use yd_store::Store;

/// How many runs there are, where so many clients put one at the front, the smallest client first, so
/// that each scan goes over all of them.
pub(crate) fn crowd(rt: &(impl Clock + AllocGlobal), count: u64) -> Option<(usize, Duration)> {
    let mut store = Store::new(rt.alloc());
    store.add_list().ok()?;
    let start = Instant::now(rt).ok()?;
    put_all(rt.alloc(), &mut store, count).ok()?;
    let took = start.elapsed(rt).ok()?;
    Some((store.len(), took))
}

/// Puts a run of each client at the front.
fn put_all(alloc: Global, store: &mut Store, count: u64) -> Result<(), NoMemory>
    requires { 0 < count_of store.old.placed }
{
    for client in 0..count {
        let run = run_of(alloc, id_of(client, 0), None, "a")?;
        put(store, run)?;
    }
    Ok(())
}

/// What a scan compares of a run.
#[derive(Clone, Copy)]
struct Row {
    id: Id,
    left: Option<Id>,
    right: Option<Id>,
}

/// How many rows are smaller where each row is compared with all before it, in a vector of rows.
pub(crate) fn rows(rt: &(impl Clock + AllocGlobal), count: u64) -> Option<(usize, Duration)> {
    let mut rows = Vec::new(rt.alloc());
    for client in 0..count {
        let row = Row {
            id: id_of(client, 0),
            left: None,
            right: None,
        };
        rows.push(row).ok()?;
    }
    let start = Instant::now(rt).ok()?;
    let mut smaller = 0usize;
    for i in 0..rows.len() {
        smaller = smaller.wrapping_add(smaller_in(&rows[..i], rows[i]));
    }
    let took = start.elapsed(rt).ok()?;
    Some((smaller, took))
}

/// How many rows have no origins and a smaller client than this one.
fn smaller_in(rows: &[Row], new: Row) -> usize {
    let mut count = 0usize;
    for row in rows {
        if row.left == new.left && row.right == new.right && row.id.client.0 < new.id.client.0 {
            count = count.wrapping_add(1);
        }
    }
    count
}
