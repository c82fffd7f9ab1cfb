//! Of which entries less is told.

ghost use Rattle.std.specs.Prelude.{◌≡◌, true, false, length, IfOk};
ghost use Rattle.std.specs.Bool.{OnTrue, OnFalse};
ghost use Rattle.yd_words.specs.Each.{Each};
ghost use Rattle.yd_words.specs.Member.{IsIn};
ghost use Rattle.yd_entries.specs.Entries.{is_held_at, is_listed_at};
ghost use Rattle.yd_entries.specs.declared.entry.Entry.{Entry};
ghost use Rattle.yd_held.specs.Telling.{is_gone_listed, is_held_less, AreHeldLess};

use crate::fault::NoMemory;
use std::alloc::Global;
use yd_received::{Entries, Entry, Place};

/// Units that are in a list are gone.
pub(crate) fn loses_one(entries: &Entries) -> bool
    ensures one { OnTrue result ((t : Entry) × IsIn t entries.now × (is_gone_listed t ≡ true)) }
    ensures none { OnFalse result (Each (λ t. is_gone_listed t ≡ false) entries.now) }
{
    for entry in entries.iter() {
        if entry.is_gone && is_listed(entry.place) {
            return true;
        }
    }
    false
}

/// The numbers of the entries that are held, and gone or of a run from one on.
pub(crate) fn held_less(
    alloc: Global,
    entries: &Entries,
    from: usize,
) -> Result<Vec<usize>, NoMemory>
    ensures { IfOk result (λ told.
        AreHeldLess from entries.now (length entries.now) told.items) }
{
    let mut told = Vec::new(alloc);
    // No more places than entries come.
    let _count = entries.len();
    let mut at = 0;
    for entry in entries.iter() {
        if is_held_less(entry, from) {
            told.push(at)?;
        }
        at += 1;
    }
    Ok(told)
}

/// The units are held, and gone or of a run from one on.
fn is_held_less(entry: Entry, from: usize) -> bool
    ensures { result ≡ is_held_less from entry }
{
    is_held(entry.place) && (entry.is_gone || entry.run >= from)
}

/// Units at the place are held.
fn is_held(place: Place) -> bool
    ensures { result ≡ is_held_at place }
{
    match place {
        Place::Waits => false,
        _ => true,
    }
}

/// Units at the place are in a list.
fn is_listed(place: Place) -> bool
    ensures { result ≡ is_listed_at place }
{
    match place {
        Place::In(_) => true,
        _ => false,
    }
}
