//! Units of a run that are taken together: whole pairs, or a half whose other half came before.

ghost use Rattle.std.specs.Prelude.{◌≡◌, ◌↔◌, ◌≤◌, ◌<◌, ◌+◌, true, [], ◌∷◌, ◌++◌};
ghost use Rattle.std.specs.Prelude.{IsTrue, IfOk, OnOk, OnErr, length, take, drop, ℕ};
ghost use Rattle.yd_ids.specs.Id.{IsClock};
ghost use Rattle.yd_ops.specs.declared.runs.Run.{Run};
ghost use Rattle.yd_ops.specs.Operation.{later_id};
ghost use Rattle.yd_ops.specs.Value.{len_of};
ghost use Rattle.yd_ops.specs.View.{content_value, run_value};
ghost use Rattle.yd_entries.specs.Entries.{PartsPair, OnlyAdds, GrowBy};
ghost use Rattle.yd_entries.specs.Taking.{IsPiece, left_at, list_from, half_at, IsRun};
ghost use Rattle.yd_entries.specs.Taking.{IsKept, Adds, operations_of_piece, entry_of, entry_from};

use crate::entries::Entries;
use crate::entry::Entry;
use crate::fault::NoMemory;
use crate::place::Place;
use std::alloc::Global;
use yd_ids::Id;
use yd_ops::{Content, List, Run};
use yd_units::Units;

/// Units of a run in a row that are taken as they are, or one half of a pair, taken as U+FFFD.
#[derive(Clone, Copy)]
pub(crate) struct Piece {
    /// How many units there are.
    pub len: u64,
    /// It is one half, and the other half came before.
    pub is_torn: bool,
}

/// The first piece of the units from one up to another, which are new, and those beside them not.
pub(crate) fn first_piece(content: &Content, from: u64, to: u64) -> Piece
    requires { from < to }
    ensures { IsPiece (content_value content.now) from to result.len result.is_torn }
{
    if parts_pair(content, from) {
        return Piece {
            len: 1,
            is_torn: true,
        };
    }
    if !parts_pair(content, to) {
        return Piece {
            len: to - from,
            is_torn: false,
        };
    }
    if to - from == 1 {
        return Piece {
            len: 1,
            is_torn: true,
        };
    }
    Piece {
        len: to - from - 1,
        is_torn: false,
    }
}

/// A cut before unit `n` would part a pair.
pub(crate) fn parts_pair(content: &Content, n: u64) -> bool
    ensures { IsTrue result ↔ PartsPair (content_value content.now) n }
{
    match content {
        Content::Str(units) => units.is_cut(n),
        _ => false,
    }
}

/// Takes a piece of a run that is kept at an index, or of units that are gone for which it stands,
/// in the time of an insertion.
pub(crate) fn take_piece(
    alloc: Global,
    runs: &mut Vec<Run>,
    taken: &mut Entries,
    run: &Run,
    is_gone: bool,
    index: usize,
    at: usize,
    from: u64,
    piece: Piece,
) -> Result<(), NoMemory>
    requires run { IsRun is_gone (run_value run.now) }
    requires kept { IsKept runs.old.items index (run_value run.now) }
    requires place { at ≤ length taken.old }
    requires bound { from + piece.len ≤ len_of (content_value run.now.content) }
    requires piece { (to : ℕ) × IsPiece (content_value run.now.content) from to
        piece.len piece.is_torn }
    ensures added { OnOk result (Adds runs.old.items taken.old
        runs.new.items taken.new at (later_id run.now.id from) piece.len
        (operations_of_piece is_gone (run_value run.now) from piece.len piece.is_torn)) }
    ensures grows { GrowBy runs.old.items runs.new.items }
    ensures adds { OnlyAdds index taken.old taken.new }
{
    if piece.is_torn {
        take_half(alloc, runs, taken, run, at, from)?;
        return Ok(());
    }
    take_whole(taken, run, is_gone, index, at, from, piece.len)?;
    Ok(())
}

/// Takes units of a run as they are.
pub(crate) fn take_whole(
    taken: &mut Entries,
    run: &Run,
    is_gone: bool,
    index: usize,
    at: usize,
    from: u64,
    len: u64,
) -> Result<(), NoMemory>
    requires place { at ≤ length taken.old }
    requires fits { IsClock (run.now.id.clock + from) }
    ensures entry { OnOk result (taken.new ≡ take at taken.old
        ++ entry_from is_gone (run_value run.now) from index len ∷ drop at taken.old) }
    ensures adds { OnlyAdds index taken.old taken.new }
{
    let entry = entry_from(run, is_gone, index, from, len);
    put_in(taken, at, entry)?;
    Ok(())
}

/// Puts units at a place.
fn put_in(taken: &mut Entries, at: usize, entry: Entry) -> Result<(), NoMemory>
    requires { at ≤ length taken.old }
    ensures put { OnOk result (taken.new
        ≡ take at taken.old ++ entry ∷ drop at taken.old) }
    ensures unchanged { OnErr result (taken.new ≡ taken.old) }
{
    taken.insert(at, entry)?;
    Ok(())
}

/// What is kept of units of a run, or of units that are gone.
fn entry_from(run: &Run, is_gone: bool, index: usize, from: u64, len: u64) -> Entry
    requires { IsClock (run.now.id.clock + from) }
    ensures { result ≡ entry_from is_gone (run_value run.now) from index len }
{
    if is_gone {
        return Entry {
            id: id_at(run, from),
            len,
            left: None,
            right: None,
            run: index,
            offset: 0,
            is_gone: true,
            place: Place::Waits,
        };
    }
    Entry {
        id: id_at(run, from),
        len,
        left: left_at(run, from),
        right: run.right,
        run: index,
        offset: from,
        is_gone: false,
        place: Place::Waits,
    }
}

/// Takes a unit of a run as U+FFFD, as a run of its own.
fn take_half(
    alloc: Global,
    runs: &mut Vec<Run>,
    taken: &mut Entries,
    run: &Run,
    at: usize,
    from: u64,
) -> Result<(), NoMemory>
    requires place { at ≤ length taken.old }
    requires fits { IsClock (run.now.id.clock + from) }
    ensures half { OnOk result ((half : Run) × (runs.new.items ≡ runs.old.items ++ half ∷ [])
        × (run_value half ≡ half_at (run_value run.now) from)) }
    ensures entry { OnOk result (taken.new ≡ take at taken.old
        ++ entry_of (run_value run.now) from (length runs.old.items) 0 1
        ∷ drop at taken.old) }
    ensures grows { GrowBy runs.old.items runs.new.items }
    ensures adds { OnlyAdds (length runs.old.items) taken.old taken.new }
{
    let half = half_at(alloc, run, from)?;
    let index = runs.len();
    let entry = Entry {
        id: half.id,
        len: 1,
        left: half.left,
        right: half.right,
        run: index,
        offset: 0,
        is_gone: false,
        place: Place::Waits,
    };
    runs.push(half)?;
    taken.insert(at, entry)?;
    Ok(())
}

/// Unit `n` of a run as U+FFFD, as a run of its own.
fn half_at(alloc: Global, run: &Run, n: u64) -> Result<Run, NoMemory>
    requires { IsClock (run.now.id.clock + n) }
    ensures { IfOk result (λ half. run_value half ≡ half_at (run_value run.now) n) }
{
    let units = replacement(alloc)?;
    let list = list_at(run, n)?;
    Ok(Run {
        id: id_at(run, n),
        left: left_at(run, n),
        right: run.right,
        list,
        content: Content::Str(units),
    })
}

/// The one unit that stands for a half without its partner.
pub(crate) fn replacement(alloc: Global) -> Result<Units, NoMemory>
    ensures { IfOk result (λ units. units ≡ 0xFFFD ∷ []) }
{
    let units = Units::from_text(alloc, "\u{FFFD}")?;
    Ok(units)
}

/// The id of a run's unit `n`.
pub(crate) fn id_at(run: &Run, n: u64) -> Id
    requires { IsClock (run.now.id.clock + n) }
    ensures { result ≡ later_id run.now.id n }
{
    Id {
        client: run.id.client,
        clock: run.id.clock + n,
    }
}

/// The left origin of a run's unit `n`.
fn left_at(run: &Run, n: u64) -> Option<Id>
    requires { IsClock (run.now.id.clock + n) }
    ensures { result ≡ left_at run.now.id run.now.left n }
{
    if n == 0 {
        return run.left;
    }
    Some(id_at(run, n - 1))
}

/// The list that a run's unit `n` carries.
fn list_at(run: &Run, n: u64) -> Result<Option<List>, NoMemory>
    ensures { IfOk result (λ list. list ≡ list_from run.now.list n) }
{
    if n > 0 {
        return Ok(None);
    }
    match &run.list {
        None => Ok(None),
        Some(list) => Ok(Some(list.copy()?)),
    }
}
