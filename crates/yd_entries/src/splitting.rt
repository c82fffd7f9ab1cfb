//! Making an entry begin at an id.

ghost use Rattle.std.specs.Prelude.{◌≡◌, ◌↔◌, ◌<◌, length, slice_get, IsTrue, IfSome, IfNone, IfOk, OnOk, HoldsAt};
ghost use Rattle.yd_words.specs.Each.{Each};
ghost use Rattle.yd_ids.specs.Id.{IsId};
ghost use Rattle.yd_ops.specs.View.{content_value, run_value};
ghost use Rattle.yd_entries.specs.Entries.{IsTakenOf, AreInOrder, list_at, GrowBy};
ghost use Rattle.yd_entries.specs.Lowering.{IsBeside, Begins, own_run};
ghost use Rattle.yd_entries.specs.Splitting.{IsAstride, begins_before, IsSplittable, split_in, back_of};
ghost use Rattle.yd_entries.specs.Splitting.{split_behind, place_behind, KeepsTwo, PartsPairOf, Tears, SplitsPair};

use crate::entries::Entries;
use crate::entry::Entry;
use crate::fault::NoMemory;
use crate::gaps::place;
use crate::pieces::{parts_pair, replacement};
use std::alloc::Global;
use yd_ids::Id;
use yd_ops::{Content, List, Run};

/// Splits the entry that has the id behind its first unit. If that parts a pair, both halves are
/// U+FFFD.
pub(crate) fn begin_at(
    alloc: Global,
    runs: &mut Vec<Run>,
    taken: &mut Entries,
    id: Id,
) -> Result<(), NoMemory>
    requires id { IsId id }
    requires each { Each (IsTakenOf runs.old.items) taken.old }
    requires in_order { AreInOrder taken.old }
    ensures begins { OnOk result (Begins runs.old.items taken.old
        runs.new.items taken.new id) }
    ensures grows { GrowBy runs.old.items runs.new.items }
{
    if let Some(at) = astride(taken, id) {
        let entry = taken.get(at);
        let n = id.clock - entry.id.clock;
        if parts_pair_of(runs, entry, n) {
            split_pair(alloc, runs, taken, at, n)?;
        } else {
            split(taken, at, n)?;
        }
    }
    Ok(())
}

/// The place of the entry that has units on both sides of an id, and none where no entry has.
fn astride(taken: &Entries, id: Id) -> Option<usize>
    requires { AreInOrder taken.now }
    ensures found { IfSome result (λ at. (at < length taken.now)
        × HoldsAt (IsAstride id) taken.now at) }
    ensures none { IfNone result (Each (IsBeside id) taken.now) }
{
    let at = place(taken, id);
    if at < taken.len() && begins_before(taken.get(at), id) {
        return Some(at);
    }
    None
}

/// The units are of the id's client, and begin before it.
fn begins_before(entry: Entry, id: Id) -> bool
    ensures { result ≡ begins_before id entry }
{
    entry.id.client.0 == id.client.0 && entry.id.clock < id.clock
}

/// A cut before unit `n` of an entry would part a pair.
fn parts_pair_of(runs: &[Run], entry: Entry, n: u64) -> bool
    requires { IsTakenOf runs.now entry × (n < entry.len) }
    ensures { IsTrue result ↔ PartsPairOf runs.now entry n }
{
    if entry.is_gone {
        return false;
    }
    parts_pair(&runs[entry.run].content, entry.offset + n)
}

/// Splits an entry before its unit `n`, where that parts a pair. Both halves are U+FFFD, in a run
/// of their own.
fn split_pair(
    alloc: Global,
    runs: &mut Vec<Run>,
    taken: &mut Entries,
    at: usize,
    n: u64,
) -> Result<(), NoMemory>
    requires each { Each (IsTakenOf runs.old.items) taken.old }
    requires in_order { AreInOrder taken.old }
    requires inside { at < length taken.old }
    requires some { 0 < n }
    requires entry { HoldsAt (λ t. (n < t.len) × PartsPairOf runs.old.items t n)
        taken.old at }
    ensures begins { OnOk result (SplitsPair runs.old.items taken.old
        runs.new.items taken.new at n) }
    ensures grows { GrowBy runs.old.items runs.new.items }
{
    let pair = split_behind(taken, at, n - 1)?;
    keep_two(taken, pair)?;
    tear(alloc, runs, taken, pair)?;
    split(taken, pair, 1)?;
    Ok(())
}

/// Splits an entry before its unit `n`, unless that is its first, and gives the place of the entry
/// that begins with it.
fn split_behind(taken: &mut Entries, at: usize, n: u64) -> Result<usize, NoMemory>
    requires inside { at < length taken.old }
    requires entry { HoldsAt (λ t. 0 < n → IsSplittable t n) taken.old at }
    ensures split { OnOk result (taken.new ≡ split_behind at n taken.old) }
    ensures place { IfOk result (λ p. p ≡ place_behind at n) }
{
    if n == 0 {
        return Ok(at);
    }
    // No place is as great as how many there are.
    let _count = taken.len();
    split(taken, at, n)?;
    Ok(at + 1)
}

/// Splits an entry behind its first two units, unless it has no more.
fn keep_two(taken: &mut Entries, at: usize) -> Result<(), NoMemory>
    requires inside { at < length taken.old }
    requires entry { HoldsAt (λ t. 2 < t.len → IsSplittable t 2) taken.old at }
    ensures { OnOk result (KeepsTwo taken.old taken.new at) }
{
    let entry = taken.get(at);
    if entry.len > 2 {
        split(taken, at, 2)?;
    }
    Ok(())
}

/// Puts U+FFFD in place of both units of an entry, in a run of their own.
fn tear(alloc: Global, runs: &mut Vec<Run>, taken: &mut Entries, at: usize) -> Result<(), NoMemory>
    requires inside { at < length taken.old }
    requires entry { HoldsAt (IsTakenOf runs.old.items) taken.old at }
    ensures torn { OnOk result (Tears runs.old.items taken.old
        runs.new.items taken.new at) }
    ensures grows { GrowBy runs.old.items runs.new.items }
{
    let entry = taken.get(at);
    let mut units = replacement(alloc)?;
    units.append(&replacement(alloc)?)?;
    let run = own_run(runs, entry, Content::Str(units))?;
    let index = runs.len();
    runs.push(run)?;
    taken.set(
        at,
        Entry {
            run: index,
            offset: 0,
            ..entry
        },
    );
    Ok(())
}

/// A run of its own for an entry's units, with their neighbours and another content.
pub(crate) fn own_run(runs: &[Run], entry: Entry, content: Content) -> Result<Run, NoMemory>
    requires { IsTakenOf runs.now entry }
    ensures { IfOk result (λ run. run_value run
        ≡ own_run runs.now entry (content_value content)) }
{
    let list = carried_by(runs, entry)?;
    Ok(Run {
        id: entry.id,
        left: entry.left,
        right: entry.right,
        list,
        content,
    })
}

/// The list that an entry's first unit carries in its run.
fn carried_by(runs: &[Run], entry: Entry) -> Result<Option<List>, NoMemory>
    requires { IsTakenOf runs.now entry }
    ensures { IfOk result (λ list. list ≡ list_at (slice_get runs.now entry.run) entry.offset) }
{
    if entry.offset > 0 {
        return Ok(None);
    }
    match &runs[entry.run].list {
        None => Ok(None),
        Some(list) => Ok(Some(list.copy()?)),
    }
}

/// Splits an entry before its unit `n`.
fn split(taken: &mut Entries, at: usize, n: u64) -> Result<(), NoMemory>
    requires inside { at < length taken.old }
    requires entry { HoldsAt (λ t. IsSplittable t n) taken.old at }
    ensures { OnOk result (taken.new ≡ split_in at n taken.old) }
{
    let _count = taken.len();
    let entry = taken.get(at);
    let front = Entry { len: n, ..entry };
    let back = back_of(entry, n);
    taken.set(at, front);
    taken.insert(at + 1, back)?;
    Ok(())
}

/// The units of an entry from unit `n` on.
fn back_of(entry: Entry, n: u64) -> Entry
    requires { IsSplittable entry n }
    ensures { result ≡ back_of entry n }
{
    let id = Id {
        client: entry.id.client,
        clock: entry.id.clock + n,
    };
    if entry.is_gone {
        return Entry {
            id,
            len: entry.len - n,
            ..entry
        };
    }
    let left = Id {
        client: entry.id.client,
        clock: entry.id.clock + (n - 1),
    };
    Entry {
        id,
        len: entry.len - n,
        left: Some(left),
        offset: entry.offset + n,
        ..entry
    }
}
