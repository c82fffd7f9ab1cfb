//! Where ids stand in a list.

ghost use Rattle.std.specs.Prelude.{◌≡◌, Some, IfSome, IfNone, slice_get};
ghost use Rattle.yd_words.specs.Member.{IsIn};
ghost use Rattle.yd_honesty.specs.Judging.{IsPlaceOf};

use crate::fault::NoMemory;
use std::alloc::Global;
use yd_ids::{Id, is_same, is_smaller};

/// An id, and a place at which it may stand.
#[derive(Clone, Copy, PartialEq, Eq, PartialOrd, Ord)]
pub struct Spot {
    pub id: Id,
    pub at: usize,
}

/// Where first and last units stand.
#[derive(Drop)]
pub struct Spots {
    /// The places of the first units.
    pub firsts: Vec<Spot>,
    /// The places of the last units.
    pub lasts: Vec<Spot>,
}

/// The places of the ids, in order of the ids. No clause rests on them: they are looked at first.
pub(crate) fn spots_of(alloc: Global, ids: &[Id]) -> Result<Vec<Spot>, NoMemory> {
    let mut spots = Vec::new(alloc);
    for at in 0..ids.len() {
        spots.push(Spot { id: ids[at], at })?;
    }
    spots.sort_unstable();
    Ok(spots)
}

/// The place of an id in the list, if there is one and the list has it.
pub(crate) fn place_of_some(ids: &[Id], spots: &[Spot], id: Option<Id>) -> Option<usize>
    ensures { IsPlaceOf ids.now id result }
{
    let id = id?;
    place_of(ids, spots, id)
}

/// The place of an id in the list. Where it is not told, the list is walked.
fn place_of(ids: &[Id], spots: &[Spot], id: Id) -> Option<usize>
    ensures { IsPlaceOf ids.now (Some id) result }
{
    let told = told_at(spots, id);
    if told < ids.len() && is_same(ids[told], id) {
        return Some(told);
    }
    walked_to(ids, id)
}

/// The place that is told of an id, or a place past the end.
fn told_at(spots: &[Spot], id: Id) -> usize {
    let near = spots.partition_point(|spot| is_smaller(spot.id, id));
    if near < spots.len() {
        return spots[near].at;
    }
    usize::MAX
}

/// The first place at which the id stands.
fn walked_to(ids: &[Id], id: Id) -> Option<usize>
    ensures { IsPlaceOf ids.now (Some id) result }
{
    for at in 0..ids.len() {
        if is_same(ids[at], id) {
            return Some(at);
        }
    }
    None
}
