//! The smallest id that breaks the edit rules.

ghost use Rattle.std.specs.Prelude.{◌≡◌, ◌<◌, ◌+◌, ℕ, Option, Some, true, length, replicate, slice_get, IfOk};
ghost use Rattle.yd_ids.specs.declared.id.Id.{Id as IdSeen};
ghost use Rattle.yd_ops.specs.declared.lists.List.{List as DocList};
ghost use Rattle.yd_meaning.specs.Held.{held_set};
ghost use Rattle.yd_received.specs.Received.{taken_of};
ghost use Rattle.yd_stretches.specs.Stretches.{stretch_lists};
ghost use Rattle.yd_honesty.specs.Dishonest.{dishonest_of};
ghost use Rattle.yd_honesty.specs.Pasts.{ArePasts};
ghost use Rattle.yd_honesty.specs.Judging.{IsKept, IsList, AreHeld, AreEnds, AreAt, AreOfList, IsBest, IsBestOf, is_better};

use crate::ends::ends_of;
use crate::fault::NoMemory;
use crate::judging::{id_at, meets_rules};
use crate::pasts::pasts_of;
use crate::places::{Spots, spots_of};
use std::alloc::Global;
use yd_firsts::compare_firsts;
use yd_held::Held;
use yd_ids::{Id, Vector, is_smaller};
use yd_order::{Comparison, Stretch};
use yd_received::Received;
use yd_stretches::gathered;

/// The smallest id of an operation that breaks the edit rules, among those that are held and not
/// lost. There is none exactly where what is held is honest (own; the rules are those of YATA).
///
/// Each list is put in order once, in the time and memory that `compare_firsts` takes for it, and
/// then the first units of its pieces are judged one by one. Beside that it takes memory with
/// entries times clients. A piece costs the steps from its left to its right origin, where what is
/// made on what is not of its past is one step.
pub fn dishonest(alloc: Global, held: &Held) -> Result<Option<Id>, NoMemory>
    ensures { IfOk result (λ found.
        found ≡ dishonest_of (held_set (taken_of held.now.received))) }
{
    let received = held.received();
    let pasts = pasts_of(alloc, received)?;
    let marks = all_marked(alloc, held.names().len())?;
    let lists = gathered(alloc, received.entries(), &marks)?;
    let mut smallest = None;
    for n in 0..lists.len() {
        smallest = judge_at(alloc, received, &pasts, &lists, n, smallest)?;
    }
    Ok(smallest)
}

/// So many marks that are set.
fn all_marked(alloc: Global, count: usize) -> Result<Vec<bool>, NoMemory>
    ensures { IfOk result (λ marks. marks.items ≡ replicate count true) }
{
    let marks = vec![in alloc; true; count]?;
    Ok(marks)
}

/// So with the list at a number besides.
fn judge_at(
    alloc: Global,
    received: &Received,
    pasts: &[Vector],
    lists: &[Vec<Stretch>],
    n: usize,
    before: Option<Id>,
) -> Result<Option<Id>, NoMemory>
    requires kept { IsKept received.now }
    requires pasts { ArePasts received.now pasts.now }
    requires inside { n < length lists.now }
    requires list { (name : DocList) × AreAt received.now name (stretch_lists lists.now) n }
    ensures { (name : DocList) → AreAt received.now name (stretch_lists lists.now) n
        → IfOk result (λ found. IsBestOf received.now name before found) }
{
    let found = judge_list(alloc, received, pasts, &lists[n], before)?;
    Ok(found)
}

/// The smaller one of an id that was found before, and the smallest one of a list that breaks the
/// edit rules.
fn judge_list(
    alloc: Global,
    received: &Received,
    pasts: &[Vector],
    stretches: &[Stretch],
    before: Option<Id>,
) -> Result<Option<Id>, NoMemory>
    requires kept { IsKept received.now }
    requires pasts { ArePasts received.now pasts.now }
    requires list { (name : DocList) × AreOfList received.now name stretches.now }
    ensures { (name : DocList) → AreOfList received.now name stretches.now
        → IfOk result (λ found. IsBestOf received.now name before found) }
{
    let firsts = compare_firsts(alloc, stretches)?;
    let spots = Spots {
        firsts: spots_of(alloc, &firsts.list.ids)?,
        lasts: spots_of(alloc, &firsts.lasts)?,
    };
    let ends = ends_of(alloc, received, pasts, &firsts.list.ids)?;
    let list = &firsts.list;
    let found = judge_units(received, pasts, list, &firsts.lasts, &spots, &ends, before);
    Ok(found)
}

/// So of the first units of a list that is compared.
fn judge_units(
    received: &Received,
    pasts: &[Vector],
    list: &Comparison,
    lasts: &[Id],
    spots: &Spots,
    ends: &[usize],
    before: Option<Id>,
) -> Option<Id>
    requires kept { IsKept received.now }
    requires pasts { ArePasts received.now pasts.now }
    requires list { IsList received.now list.now.ids.items lasts.now list.now.is_strict
        list.now.cells.items }
    requires held { AreHeld received.now list.now.ids.items }
    requires ends { AreEnds received.now list.now.ids.items ends.now 0 }
    ensures { IsBest received.now list.now.ids.items (length list.now.ids.items) before result }
{
    let mut found = before;
    for at in 0..list.ids.len() {
        found = judge_unit(received, pasts, list, lasts, spots, ends, found, at);
    }
    found
}

/// So with the unit at a place besides, which is judged only if its id is smaller.
fn judge_unit(
    received: &Received,
    pasts: &[Vector],
    list: &Comparison,
    lasts: &[Id],
    spots: &Spots,
    ends: &[usize],
    found: Option<Id>,
    at: usize,
) -> Option<Id>
    requires kept { IsKept received.now }
    requires pasts { ArePasts received.now pasts.now }
    requires list { IsList received.now list.now.ids.items lasts.now list.now.is_strict
        list.now.cells.items }
    requires held { AreHeld received.now list.now.ids.items }
    requires ends { AreEnds received.now list.now.ids.items ends.now 0 }
    requires inside { at < length list.now.ids.items }
    ensures { (before : Option IdSeen) → IsBest received.now list.now.ids.items at before found
        → IsBest received.now list.now.ids.items (at + 1) before result }
{
    let id = id_at(list, at);
    if !is_better(found, id) {
        return found;
    }
    if meets_rules(received, pasts, list, lasts, spots, ends, at) {
        return found;
    }
    Some(id)
}

/// The id is smaller than the one that was found, or none was.
fn is_better(found: Option<Id>, id: Id) -> bool
    ensures { result ≡ is_better found id }
{
    match found {
        None => true,
        Some(least) => is_smaller(id, least),
    }
}
