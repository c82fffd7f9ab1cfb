//! The ids of units in a range of indexes.

ghost use Rattle.std.specs.Prelude.{◌≡◌, ◌≤◌, ◌⊎◌, ◌-◌, length, take, drop, IfOk, OnOk};
ghost use Rattle.yd_ids.specs.Set.{AreMaximal};
ghost use Rattle.yd_editing.specs.TextEdit.{counted_units, ids_of_units};
ghost use Rattle.yd_state.specs.Lent.{units_of_view, IsWithin};
ghost use Rattle.yd_doc.specs.Counted.{counted_ids};
ghost use Rattle.yd_doc.specs.Kept.{own_document};
ghost use Rattle.yd_text.specs.Ranges.{TakesRange, TakesPart};

use std::alloc::Global;
use yd_doc::{Replica, RunView, counted_len};
use yd_ids::{IdSet, NoMemory, Span};
use yd_ops::List;

/// What is wanted of units that come.
#[derive(Clone, Copy)]
pub(crate) struct Wanted {
    /// So many are passed first.
    pub skip: u64,
    /// Then so many are taken.
    pub len: u64,
}

/// Units from an index on.
#[derive(Clone, Copy)]
pub(crate) struct Range {
    /// The index of the first.
    pub index: u64,
    /// How many they are, at most.
    pub len: u64,
}

/// The ids of so many live counted units from an index on. It takes time as reading the list by
/// pieces does between the range's farther end and the nearer end of the list, and an insertion for
/// each piece of the range.
pub(crate) fn units_between(
    alloc: Global,
    replica: &Replica,
    list: &List,
    index: u64,
    len: u64,
) -> Result<IdSet, NoMemory>
    ensures { IfOk result (λ ids. ids ≡ ids_of_units
        (take len (drop index (counted_units (own_document replica.now) list.now)))) }
{
    let length = replica.length(list);
    if length <= index {
        return between_from_front(alloc, replica, list, index, len);
    }
    if length - index < index {
        return between_from_back(alloc, replica, list, length, Range { index, len });
    }
    between_from_front(alloc, replica, list, index, len)
}

/// The ids of so many live counted units from an index on, found from the front.
fn between_from_front(
    alloc: Global,
    replica: &Replica,
    list: &List,
    index: u64,
    len: u64,
) -> Result<IdSet, NoMemory>
    ensures { IfOk result (λ ids. ids ≡ ids_of_units
        (take len (drop index (counted_units (own_document replica.now) list.now)))) }
{
    let mut ids = IdSet::new(alloc);
    let mut view = replica.list(list);
    let mut want = Wanted { skip: index, len };
    while let Some(piece) = view.next() {
        if want.len == 0 {
            return Ok(ids);
        }
        want = take_piece(&mut ids, &piece, want)?;
    }
    Ok(ids)
}

/// The ids of the live counted units of a range, found from the back of a list of so many.
fn between_from_back(
    alloc: Global,
    replica: &Replica,
    list: &List,
    all: u64,
    range: Range,
) -> Result<IdSet, NoMemory>
    requires { all ≡ length (counted_units (own_document replica.now) list.now) }
    ensures { IfOk result (λ ids. ids ≡ ids_of_units
        (take range.len (drop range.index (counted_units (own_document replica.now) list.now)))) }
{
    let mut ids = IdSet::new(alloc);
    let mut view = replica.list(list);
    let mut end = all;
    while let Some(piece) = view.next_back() {
        if end <= range.index {
            return Ok(ids);
        }
        end -= counted_len(&piece);
        take_part(&mut ids, &piece, end, range)?;
    }
    Ok(ids)
}

/// Adds the ids of a piece that are in a range, where so many live counted units stand before it.
fn take_part(
    ids: &mut IdSet,
    piece: &RunView<'_>,
    before: u64,
    range: Range,
) -> Result<(), NoMemory>
    requires within { IsWithin piece.now }
    requires maximal { AreMaximal ids.old }
    ensures taken { OnOk result (TakesPart ids.old ids.new
        (counted_ids (units_of_view piece.now)) before range.index range.len) }
    ensures maximal { AreMaximal ids.new }
{
    let count = counted_len(piece);
    let skip = less(range.index, before);
    let passed = less(before, range.index);
    let rest = less(count, skip);
    let want = less(range.len, passed);
    let part = least(rest, want);
    if part == 0 {
        return Ok(());
    }
    ids.insert(Span {
        client: piece.id.client,
        clock: piece.id.clock + skip,
        len: part,
    })?;
    Ok(())
}

/// A number less another, and 0 where the other is greater.
fn less(a: u64, b: u64) -> u64
    ensures { result ≡ a - b }
{
    a.saturating_sub(b)
}

/// Adds the ids that are wanted of a piece, and says what is still wanted.
fn take_piece(ids: &mut IdSet, piece: &RunView<'_>, want: Wanted) -> Result<Wanted, NoMemory>
    requires within { IsWithin piece.now }
    requires maximal { AreMaximal ids.old }
    ensures taken { IfOk result (λ left. TakesRange ids.old ids.new
        (counted_ids (units_of_view piece.now)) want.skip want.len left.skip left.len) }
    ensures maximal { AreMaximal ids.new }
{
    let count = counted_len(piece);
    if count <= want.skip {
        return Ok(Wanted {
            skip: want.skip - count,
            len: want.len,
        });
    }
    let part = least(count - want.skip, want.len);
    ids.insert(Span {
        client: piece.id.client,
        clock: piece.id.clock + want.skip,
        len: part,
    })?;
    Ok(Wanted {
        skip: 0,
        len: want.len - part,
    })
}

/// The smaller of two numbers.
fn least(a: u64, b: u64) -> u64
    ensures first { result ≤ a }
    ensures second { result ≤ b }
    ensures one { (result ≡ a) ⊎ (result ≡ b) }
{
    if a < b { a } else { b }
}
