//! Lowering what is there to deleted or gone.

ghost use Rattle.std.specs.Prelude.{◌≡◌, ◌↔◌, ◌≤◌, ◌<◌, ◌+◌, length, IsTrue, IfOk, OnOk, HoldsAt};
ghost use Rattle.std.specs.Bool.{OnTrue, OnFalse};
ghost use Rattle.yd_words.specs.Each.{Each};
ghost use Rattle.yd_ids.specs.Id.{IsId, IsClock};
ghost use Rattle.yd_ops.specs.Operation.{later_id};
ghost use Rattle.yd_entries.specs.Entries.{IsTakenOf, AreInOrder, operations_in, GrowBy};
ghost use Rattle.yd_entries.specs.Lowering.{Lowers, LowersWhole, LowersEntry, SaysMore, IsBacked, KeepsAside};
ghost use Rattle.yd_entries.specs.Lowering.{IsBeside, begins_within, level_from, level_of_entry, as_gone};
ghost use Rattle.yd_entries.specs.Staying.{KeepsPlaces};
ghost use Rattle.yd_entries.specs.Taking.{AreUnchanged};

use crate::entries::Entries;
use crate::entry::Entry;
use crate::fault::NoMemory;
use crate::gaps::place;
use crate::splitting::{begin_at, own_run};
use std::alloc::Global;
use yd_ids::Id;
use yd_ops::{Content, Run};

/// The level of what is gone.
const GONE: u64 = 0;
/// The level of what is deleted.
const DELETED: u64 = 1;
/// The level of what is told in full.
const FULL: u64 = 2;

/// The level to which deleted units lower, or ones that are gone.
pub fn level_from(is_gone: bool) -> u64
    ensures { result ≡ level_from is_gone }
{
    if is_gone { GONE } else { DELETED }
}

/// Lowers so many units from an id on to a level, where they say more, and says whether one did. A
/// half that loses its partner is U+FFFD. All units stay at their places. Before the first entry is
/// lowered the entries are copied. Where memory ends, some may be lowered, and the copy puts them back.
pub fn lower(
    alloc: Global,
    runs: &mut Vec<Run>,
    taken: &mut Entries,
    before: &mut Option<Entries>,
    id: Id,
    len: u64,
    level: u64,
) -> Result<bool, NoMemory>
    requires id { IsId id }
    requires some { 0 < len }
    requires end { IsClock (id.clock + len) }
    requires level { level < 2 }
    requires each { Each (IsTakenOf runs.old.items) taken.old }
    requires in_order { AreInOrder taken.old }
    ensures lowered { IfOk result (λ says. OnTrue says (Lowers runs.old.items taken.old
        runs.new.items taken.new id len level)) }
    ensures says { IfOk result (λ says. IsTrue says
        ↔ SaysMore id len level (operations_in runs.old.items taken.old)) }
    ensures unchanged { IfOk result (λ says. OnFalse says
        (AreUnchanged runs.old.items taken.old runs.new.items taken.new)) }
    ensures aside { IfOk result (λ says. OnFalse says (before.new ≡ before.old)) }
    ensures grows { GrowBy runs.old.items runs.new.items }
    ensures places { OnOk result (KeepsPlaces runs.old.items taken.old
        runs.new.items taken.new) }
    ensures backed { IsBacked (length runs.old.items) before.old taken.old
        before.new taken.new }
{
    if !says_more(runs, taken, id, len, level) {
        return Ok(false);
    }
    keep_aside(alloc, taken, before)?;
    lower_span(alloc, runs, taken, id, len, level)?;
    Ok(true)
}

/// One of the units says more than the level.
fn says_more(runs: &[Run], taken: &Entries, id: Id, len: u64, level: u64) -> bool
    requires each { Each (IsTakenOf runs.now) taken.now }
    requires in_order { AreInOrder taken.now }
    requires id { IsId id }
    requires some { 0 < len }
    requires end { IsClock (id.clock + len) }
    ensures { IsTrue result ↔ SaysMore id len level (operations_in runs.now taken.now) }
{
    for at in place(taken, id)..taken.len() {
        let entry = taken.get(at);
        if !begins_within(entry, id, len) {
            return false;
        }
        if level_of(runs, entry) > level {
            return true;
        }
    }
    false
}

/// The units begin before so many from an id on end, where they do not end by the id.
fn begins_within(entry: Entry, id: Id, len: u64) -> bool
    requires { IsClock (id.clock + len) }
    ensures { result ≡ begins_within id len entry }
{
    entry.id.client.0 == id.client.0 && entry.id.clock < id.clock + len
}

/// How much is told of the units.
fn level_of(runs: &[Run], entry: Entry) -> u64
    requires { IsTakenOf runs.now entry }
    ensures { result ≡ level_of_entry runs.now entry }
{
    if entry.is_gone {
        return GONE;
    }
    match &runs[entry.run].content {
        Content::Deleted(_) => DELETED,
        _ => FULL,
    }
}

/// Keeps a copy of the entries, unless some are kept.
fn keep_aside(alloc: Global, taken: &Entries, before: &mut Option<Entries>) -> Result<(), NoMemory>
    ensures { KeepsAside taken.now before.old before.new result }
{
    if before.is_some() {
        return Ok(());
    }
    let copy = taken.copy(alloc)?;
    *before = Some(copy);
    Ok(())
}

/// Lowers so many units from an id on to a level, where they say more.
fn lower_span(
    alloc: Global,
    runs: &mut Vec<Run>,
    taken: &mut Entries,
    id: Id,
    len: u64,
    level: u64,
) -> Result<(), NoMemory>
    requires id { IsId id }
    requires some { 0 < len }
    requires end { IsClock (id.clock + len) }
    requires level { level < 2 }
    requires each { Each (IsTakenOf runs.old.items) taken.old }
    requires in_order { AreInOrder taken.old }
    ensures lowered { OnOk result (Lowers runs.old.items taken.old
        runs.new.items taken.new id len level) }
    ensures grows { GrowBy runs.old.items runs.new.items }
    ensures places { OnOk result (KeepsPlaces runs.old.items taken.old
        runs.new.items taken.new) }
{
    let end = Id {
        client: id.client,
        clock: id.clock + len,
    };
    begin_at(alloc, runs, taken, id)?;
    begin_at(alloc, runs, taken, end)?;
    lower_whole(runs, taken, id, len, level)?;
    Ok(())
}

/// Lowers so many units from an id on to a level, where entries begin at both ends.
fn lower_whole(
    runs: &mut Vec<Run>,
    taken: &mut Entries,
    id: Id,
    len: u64,
    level: u64,
) -> Result<(), NoMemory>
    requires id { IsId id }
    requires end { IsClock (id.clock + len) }
    requires level { level < 2 }
    requires each { Each (IsTakenOf runs.old.items) taken.old }
    requires in_order { AreInOrder taken.old }
    requires first { Each (IsBeside id) taken.old }
    requires last { Each (IsBeside (later_id id len)) taken.old }
    ensures lowered { OnOk result (LowersWhole runs.old.items taken.old
        runs.new.items taken.new id len level) }
    ensures grows { GrowBy runs.old.items runs.new.items }
{
    let mut at = place(taken, id);
    while at < taken.len() && begins_within(taken.get(at), id, len) {
        lower_entry(runs, taken, at, level)?;
        at += 1;
    }
    Ok(())
}

/// Lowers an entry to a level, if it says more: to a deleted run, or to units that are gone.
fn lower_entry(
    runs: &mut Vec<Run>,
    taken: &mut Entries,
    at: usize,
    level: u64,
) -> Result<(), NoMemory>
    requires inside { at < length taken.old }
    requires level { level < 2 }
    requires entry { HoldsAt (IsTakenOf runs.old.items) taken.old at }
    ensures lowered { OnOk result (LowersEntry runs.old.items taken.old
        runs.new.items taken.new at level) }
    ensures grows { GrowBy runs.old.items runs.new.items }
{
    let entry = taken.get(at);
    if level_of(runs, entry) <= level {
        return Ok(());
    }
    if level == GONE {
        taken.set(at, gone(entry));
        return Ok(());
    }
    let run = own_run(runs, entry, Content::Deleted(entry.len))?;
    let index = runs.len();
    runs.push(run)?;
    taken.set(
        at,
        Entry {
            run: index,
            offset: 0,
            ..entry
        },
    );
    Ok(())
}

/// The units, of which no more than their ids is told.
fn gone(entry: Entry) -> Entry
    ensures { result ≡ as_gone entry }
{
    Entry {
        left: None,
        right: None,
        is_gone: true,
        ..entry
    }
}
