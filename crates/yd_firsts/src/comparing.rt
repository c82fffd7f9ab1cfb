//! Which first units of pieces are before which.

ghost use Rattle.std.specs.Prelude.{◌≡◌, ◌++◌, IfOk, IfSome, OnOk};
ghost use Rattle.yd_words.specs.Each.{Each};
ghost use Rattle.yd_origins.specs.Table.{IsTable};
ghost use Rattle.yd_order.specs.Stretch.{EndsAtClock, rows_of_stretches, among_rows};
ghost use Rattle.yd_firsts.specs.Firsts.{ComparesFirsts, HaveStarts};
ghost use Rattle.yd_firsts.specs.Pieces.{HasUnits, firsts_of};

use crate::collapsing::{collapsed, lasts_of};
use crate::cutting::pieces_of;
use crate::fault::NoMemory;
use std::alloc::Global;
use yd_ids::Id;
use yd_order::{Comparison, Stretch, compare_stretches};

/// The first units of pieces, compared, with their last units.
#[derive(Drop)]
pub struct Firsts {
    /// The first units, and which of them are before which.
    pub list: Comparison,
    /// The last unit of the piece of each.
    pub lasts: Vec<Id>,
}

/// The order of the units of stretches, told by the first and the last units of pieces. A right
/// origin that is not the id of one of the units counts as absent.
///
/// It takes what `yd_order::compare_stretches` takes of one unit for each piece, where that finds a
/// strict order, and each right origin is a unit. Else the pieces are all units one by one. The
/// stretches are to be in the order of writing, greater clients first; speed alone rests on that.
pub fn compare_firsts(alloc: Global, stretches: &[Stretch]) -> Result<Firsts, NoMemory>
    requires clocks { Each EndsAtClock stretches.now }
    requires table { IsTable (among_rows (rows_of_stretches stretches.now)) }
    ensures compared { IfOk result (λ made.
        ComparesFirsts (among_rows (rows_of_stretches stretches.now))
        made.list.ids.items made.lasts.items made.list.is_strict made.list.cells.items) }
    ensures starts { IfOk result (λ made. HaveStarts stretches.now made.list.ids.items) }
{
    let pieces = pieces_of(alloc, stretches)?;
    if let Some(made) = compare_pieces(alloc, &pieces)? {
        return Ok(made);
    }
    let made = compare_units(alloc, stretches)?;
    Ok(made)
}

/// So of pieces, if their order is strict.
fn compare_pieces(alloc: Global, pieces: &[Stretch]) -> Result<Option<Firsts>, NoMemory>
    requires clocks { Each EndsAtClock pieces.now }
    requires units { Each HasUnits pieces.now }
    requires table { IsTable (among_rows (rows_of_stretches pieces.now)) }
    ensures compared { IfOk result (λ found. IfSome found (λ made.
        ComparesFirsts (among_rows (rows_of_stretches pieces.now))
        made.list.ids.items made.lasts.items made.list.is_strict made.list.cells.items)) }
    ensures starts { IfOk result (λ found. IfSome found (λ made.
        HaveStarts pieces.now made.list.ids.items)) }
{
    let Some(ones) = collapsed(alloc, pieces)? else {
        return Ok(None);
    };
    let list = compare_stretches(alloc, &ones)?;
    if !list.is_strict {
        return Ok(None);
    }
    let Some(lasts) = lasts_of(alloc, pieces, &list.ids)? else {
        return Ok(None);
    };
    Ok(Some(Firsts { list, lasts }))
}

/// So where each unit is a piece. Without room for all units it is not begun.
fn compare_units(alloc: Global, stretches: &[Stretch]) -> Result<Firsts, NoMemory>
    requires clocks { Each EndsAtClock stretches.now }
    requires table { IsTable (among_rows (rows_of_stretches stretches.now)) }
    ensures compared { IfOk result (λ made.
        ComparesFirsts (among_rows (rows_of_stretches stretches.now))
        made.list.ids.items made.lasts.items made.list.is_strict made.list.cells.items) }
    ensures starts { IfOk result (λ made. HaveStarts stretches.now made.list.ids.items) }
{
    let mut lasts = Vec::with_capacity(alloc, units_of(stretches))?;
    let list = compare_stretches(alloc, stretches)?;
    push_all(&mut lasts, &list.ids)?;
    Ok(Firsts { list, lasts })
}

/// How many units there are, or the greatest number.
fn units_of(stretches: &[Stretch]) -> usize {
    let mut count = 0u64;
    for stretch in stretches {
        count = count.saturating_add(stretch.len);
    }
    usize::try_from(count).unwrap_or(usize::MAX)
}

/// Appends ids.
fn push_all(ids: &mut Vec<Id>, more: &[Id]) -> Result<(), NoMemory>
    ensures { OnOk result (ids.new.items ≡ ids.old.items ++ more.now) }
{
    for id in more {
        ids.push(*id)?;
    }
    Ok(())
}
