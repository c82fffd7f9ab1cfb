//! Cases are played.

ghost use Rattle.std.specs.Prelude.{◌≡◌, ◌<◌};
ghost use Rattle.yd_arena.specs.Arena.{count_of};

use crate::changing::change;
use crate::step::{Case, Step};
use crate::telling::{add, goes_back, tell_id, tell_list};
use std::alloc::Global;
use yd_ids::Client;
use yd_ops::NoMemory;
use yd_store::Store;

/// What is seen of the changes that found no memory.
#[derive(Clone, Copy)]
pub struct Retries {
    /// There was one.
    pub some: bool,
    /// After one, the store told something else than before.
    pub wrong: bool,
}

/// Plays a case, and adds its line.
pub(crate) fn play_case(
    alloc: Global,
    case: &Case,
    out: &mut Vec<u8>,
    retries: &mut Retries,
) -> Result<(), NoMemory> {
    let mut store = Store::new(alloc);
    store.add_list()?;
    store.add_list()?;
    // Once for each change, since each may wait for another one.
    for _ in case.steps {
        for step in case.steps {
            play(alloc, &mut store, *step, retries)?;
        }
    }
    tell(alloc, case, &store, out)
}

/// Makes a change, and where that finds no memory once more.
fn play(alloc: Global, store: &mut Store, step: Step, retries: &mut Retries) -> Result<(), NoMemory>
    requires { 1 < count_of store.old.placed }
    ensures { count_of store.new.placed ≡ count_of store.old.placed }
{
    let before = told(alloc, store)?;
    if change(alloc, store, step).is_err() {
        retries.some = true;
        retries.wrong |= told(alloc, store)? != before;
        change(alloc, store, step)?;
    }
    Ok(())
}

/// What both lists tell, and the next clocks.
fn told(alloc: Global, store: &Store) -> Result<Vec<u8>, NoMemory>
    requires { 1 < count_of store.now.placed }
{
    let mut out = Vec::new(alloc);
    tell_list(alloc, store, 0, false, &mut out)?;
    tell_list(alloc, store, 1, false, &mut out)?;
    for client in 0..10 {
        let next = store.next_clock(Client(client));
        add(&mut out, format!(in alloc; " {next}")?.as_str())?;
    }
    Ok(out)
}

/// The line of a case.
fn tell(alloc: Global, case: &Case, store: &Store, out: &mut Vec<u8>) -> Result<(), NoMemory>
    requires { 1 < count_of store.now.placed }
{
    add(out, case.name)?;
    add(out, ": ")?;
    tell_list(alloc, store, 0, true, out)?;
    if store.first(1).is_some() {
        add(out, " / ")?;
        tell_list(alloc, store, 1, true, out)?;
    }
    for id in case.ids {
        tell_id(alloc, store, *id, out)?;
    }
    if !goes_back(alloc, store, 0)? || !goes_back(alloc, store, 1)? {
        add(out, "; links differ")?;
    }
    add(out, "\n")
}
