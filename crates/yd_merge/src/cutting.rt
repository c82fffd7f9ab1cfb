//! Cutting what was received by a vector.

ghost use Rattle.std.specs.Prelude.{◌≡◌, ◌<◌, [], ◌∷◌, map, IfOk, OnOk};
ghost use Rattle.yd_ids.specs.Vector.{clock_of};
ghost use Rattle.yd_ops.specs.Valid.{IsValidUpdate};
ghost use Rattle.yd_ops.specs.View.{content_value, update_value};
ghost use Rattle.yd_ops.specs.Received.{received_set};
ghost use Rattle.yd_grouping.specs.Building.{all_pushed};
ghost use Rattle.yd_grouping.specs.Grouped.{grouping_of};
ghost use Rattle.yd_grouping.specs.Merged.{cut_of, cut_update};
ghost use Rattle.yd_entries.specs.Entries.{AreTaken, IsTakenOf, operations_in};
ghost use Rattle.yd_received.specs.Received.{taken_of};
ghost use Rattle.yd_entries.specs.Splitting.{IsSplittable};
ghost use Rattle.yd_building.specs.Builder.{built_of};
ghost use Rattle.yd_merge.specs.Cutting.{parts_content, parts_entry, left_out, behind, cut_entry};
ghost use Rattle.yd_merge.specs.Told.{group_of_entry};

use crate::fault::NoMemory;
use crate::lending::{in_turn, lend_update};
use crate::lent_cutting::cut_lent;
use crate::naming::named_in;
use crate::parts::group_of;
use std::alloc::Global;
use yd_building::Builder;
use yd_ids::{Id, IdSet, Vector};
use yd_ops::{Content, Run, Update};
use yd_received::{Entries, Entry, Received};

/// What an update says from a vector on, and all its deletions, as one grouped update (Yjs 13,
/// diffUpdate; that it keeps pairs whole is own): the operations whose clock is not below their
/// client's clock in the vector, and the high half of a pair whose low half has that clock. The cut
/// and what lies below it give the whole (`yd_grouping::law::cuts_give_the_whole`). Where no two structs
/// have a unit with one id, nothing is copied but what is written. Else the update is taken in.
pub fn cut(alloc: Global, update: &Update, vector: &Vector) -> Result<Update, NoMemory>
    requires { IsValidUpdate (update_value update.now) }
    ensures cut { IfOk result (λ cut. update_value cut
        ≡ cut_update (update_value update.now) (clock_of vector.now)) }
    ensures valid { IfOk result (λ cut. IsValidUpdate (update_value cut)) }
{
    let deletes = named_in(alloc, update)?;
    let cut = cut_with(alloc, update, vector, deletes)?;
    Ok(cut)
}

/// The same, where the ids that the update deletes by name are known.
fn cut_with(
    alloc: Global,
    update: &Update,
    vector: &Vector,
    deletes: IdSet,
) -> Result<Update, NoMemory>
    requires valid { IsValidUpdate (update_value update.now) }
    requires deletes { deletes ≡ (received_set (update_value update.now ∷ [])).deletes }
    ensures { IfOk result (λ cut. update_value cut
        ≡ cut_update (update_value update.now) (clock_of vector.now)) }
{
    let mut lents = Vec::new(alloc);
    lend_update(&mut lents, update)?;
    match in_turn(lents) {
        Some(lents) => {
            let cut = cut_lent(alloc, &lents, vector, deletes)?;
            Ok(cut)
        }
        None => cut_taken(alloc, update, vector, deletes),
    }
}

/// The same, by taking the update in.
fn cut_taken(
    alloc: Global,
    update: &Update,
    vector: &Vector,
    deletes: IdSet,
) -> Result<Update, NoMemory>
    requires valid { IsValidUpdate (update_value update.now) }
    requires deletes { deletes ≡ (received_set (update_value update.now ∷ [])).deletes }
    ensures { IfOk result (λ cut. update_value cut
        ≡ cut_update (update_value update.now) (clock_of vector.now)) }
{
    let mut received = Received::new(alloc);
    let copy = update.copy()?;
    received.take(copy)?;
    let cut = write_cut(alloc, &received, vector, deletes)?;
    Ok(cut)
}

/// What was received from a vector on, as one grouped update with these deletions: the operations
/// whose clock is not below their client's clock in the vector, and the high half of a pair whose low
/// half has that clock. It takes a look-up for each entry, and the time and memory of what it writes.
pub fn write_cut(
    alloc: Global,
    received: &Received,
    vector: &Vector,
    deletes: IdSet,
) -> Result<Update, NoMemory>
    ensures { IfOk result (λ update. update_value update
        ≡ grouping_of (cut_of (taken_of received.now) (clock_of vector.now)) deletes) }
{
    let runs = received.runs();
    let entries = received.entries();
    let update = cut_entries(alloc, runs, entries, vector, deletes)?;
    Ok(update)
}

/// The grouped update of the entries' units from a vector on, with these deletions.
fn cut_entries(
    alloc: Global,
    runs: &[Run],
    entries: &Entries,
    vector: &Vector,
    deletes: IdSet,
) -> Result<Update, NoMemory>
    requires { AreTaken runs.now entries.now }
    ensures { IfOk result (λ update. update_value update
        ≡ grouping_of (cut_of (operations_in runs.now entries.now) (clock_of vector.now)) deletes) }
{
    let mut builder = Builder::new(alloc);
    for entry in entries.iter() {
        let clock = vector.get(entry.id.client);
        push_cut(alloc, &mut builder, runs, entry, clock)?;
    }
    let update = builder.finish(deletes)?;
    Ok(update)
}

/// Puts the units of an entry behind what is built that are in the cut at a clock, if there are some.
pub fn push_cut(
    alloc: Global,
    builder: &mut Builder,
    runs: &[Run],
    entry: Entry,
    clock: u64,
) -> Result<(), NoMemory>
    requires { IsTakenOf runs.now entry }
    ensures { OnOk result (built_of builder.new ≡ all_pushed (built_of builder.old)
        (map (group_of_entry runs.now) (cut_entry runs.now clock entry))) }
{
    let n = left_out(runs, entry, clock);
    if n < entry.len {
        let group = group_of(alloc, runs, behind(entry, n))?;
        builder.push(group)?;
    }
    Ok(())
}

/// How many of an entry's first units are not in the cut at a clock.
fn left_out(runs: &[Run], entry: Entry, clock: u64) -> u64
    requires { IsTakenOf runs.now entry }
    ensures { result ≡ left_out runs.now clock entry }
{
    if clock <= entry.id.clock {
        return 0;
    }
    let below = clock - entry.id.clock;
    if below >= entry.len {
        return entry.len;
    }
    if parts_pair(runs, entry, below) {
        return below - 1;
    }
    below
}

/// A cut before unit `n` of an entry would part a pair.
fn parts_pair(runs: &[Run], entry: Entry, n: u64) -> bool
    requires taken { IsTakenOf runs.now entry }
    requires inside { n < entry.len }
    ensures { result ≡ parts_entry runs.now entry n }
{
    if entry.is_gone {
        return false;
    }
    is_cut(&runs[entry.run].content, entry.offset + n)
}

/// A cut before unit `n` of a content would part a pair.
fn is_cut(content: &Content, n: u64) -> bool
    ensures { result ≡ parts_content (content_value content.now) n }
{
    match content {
        Content::Str(units) => units.is_cut(n),
        _ => false,
    }
}

/// The units of an entry behind its first `n`.
fn behind(entry: Entry, n: u64) -> Entry
    requires { 0 < n → IsSplittable entry n }
    ensures { result ≡ behind entry n }
{
    if n == 0 {
        return entry;
    }
    let client = entry.id.client;
    let before = entry.id.clock + (n - 1);
    let id = Id {
        client,
        clock: before + 1,
    };
    let len = entry.len - n;
    if entry.is_gone {
        return Entry { id, len, ..entry };
    }
    let left = Some(Id {
        client,
        clock: before,
    });
    Entry {
        id,
        len,
        left,
        offset: entry.offset + n,
        ..entry
    }
}
