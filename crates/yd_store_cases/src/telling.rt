//! What is told of a store.

ghost use Rattle.std.specs.Prelude.{◌<◌, length};
ghost use Rattle.yd_arena.specs.Arena.{runs_of, count_of};

use crate::step::At;
use std::alloc::Global;
use yd_ids::{Client, Id};
use yd_ops::{Content, NoMemory};
use yd_store::Store;
use yd_units::Units;

/// The runs of a list in order, and how many of its units are live.
pub(crate) fn tell_list(
    alloc: Global,
    store: &Store,
    list: usize,
    bars: bool,
    out: &mut Vec<u8>,
) -> Result<(), NoMemory>
    requires { list < count_of store.now.placed }
{
    let mut was_deleted = false;
    let mut at = store.first(list);
    for i in 0..store.len() {
        let Some(place) = at else {
            break;
        };
        if place >= store.len() {
            break;
        }
        let is_deleted = store.is_deleted(place);
        tell_border(was_deleted, is_deleted, bars && i > 0, out)?;
        tell_run(store, place, out)?;
        was_deleted = is_deleted;
        at = store.next(place);
    }
    tell_border(was_deleted, false, false, out)?;
    let live = store.live(list);
    add(out, format!(in alloc; ", {live} live")?.as_str())
}

/// What stands between two runs.
fn tell_border(was: bool, is: bool, bar: bool, out: &mut Vec<u8>) -> Result<(), NoMemory> {
    if was && !is {
        out.push(b')')?;
    }
    if bar {
        out.push(b'|')?;
    }
    if is && !was {
        out.push(b'(')?;
    }
    Ok(())
}

/// What the run at a place holds.
fn tell_run(store: &Store, place: usize, out: &mut Vec<u8>) -> Result<(), NoMemory>
    requires { place < length (runs_of store.now.placed) }
{
    let Some(run) = store.run_of(place) else {
        return add(out, "nothing");
    };
    match &run.content {
        Content::Str(units) => tell_units(units, out)?,
        Content::Deleted(count) => {
            for _ in 0..*count {
                out.push(b'-')?;
            }
        }
        _ => out.push(b'?')?,
    }
    Ok(())
}

/// Units one by one, with a sign for each half of a pair.
fn tell_units(units: &Units, out: &mut Vec<u8>) -> Result<(), NoMemory> {
    for i in 0..units.len() {
        let sign = match units.unit(i) {
            Some(0xD800..=0xDBFF) => b'<',
            Some(0xDC00..=0xDFFF) => b'>',
            Some(0xFFFD) => b'#',
            Some(unit) if unit < 0x80 => unit as u8,
            _ => b'?',
        };
        out.push(sign)?;
    }
    Ok(())
}

/// What is told of an id: that it is not held, or whether it is deleted, and in which list it is, or
/// what a run holds that is in none.
pub(crate) fn tell_id(
    alloc: Global,
    store: &Store,
    at: At,
    out: &mut Vec<u8>,
) -> Result<(), NoMemory> {
    let (client, clock) = at;
    add(out, format!(in alloc; "; {client}.{clock}")?.as_str())?;
    let id = Id {
        client: Client(client),
        clock,
    };
    let Some(found) = store.find(id) else {
        return add(out, " is not held");
    };
    if store.run_of(found.place).is_none() {
        add(out, " is gone")?;
    } else if store.is_deleted(found.place) {
        add(out, " is deleted")?;
    }
    match store.list_of(found.place) {
        None => {
            add(out, " in no list: ")?;
            tell_run(store, found.place, out)
        }
        Some(list) => add(out, format!(in alloc; " in {list}")?.as_str()),
    }
}

/// Whether a list has the same places backwards.
pub(crate) fn goes_back(alloc: Global, store: &Store, list: usize) -> Result<bool, NoMemory>
    requires { list < count_of store.now.placed }
{
    let mut places = Vec::new(alloc);
    let mut at = store.first(list);
    for _ in 0..store.len() {
        let Some(place) = at else {
            break;
        };
        if place >= store.len() {
            break;
        }
        places.push(place)?;
        at = store.next(place);
    }
    let mut back = store.last(list);
    for place in places.iter().rev() {
        if back != Some(*place) || *place >= store.len() {
            return Ok(false);
        }
        back = store.prev(*place);
    }
    Ok(at.is_none() && back.is_none())
}

/// Adds a text.
pub(crate) fn add(out: &mut Vec<u8>, text: &str) -> Result<(), NoMemory> {
    out.extend_from_slice(text.as_bytes())?;
    Ok(())
}
