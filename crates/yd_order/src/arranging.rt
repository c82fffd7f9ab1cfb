//! The order of a list that origins alone give.

ghost use Rattle.std.specs.Prelude.{◌≡◌, ◌↔◌, ◌*◌, length, map, IfOk, IfSome, IsSome};
ghost use Rattle.yd_words.specs.Each.{Each};
ghost use Rattle.yd_origins.specs.Sorted.{origin_order};
ghost use Rattle.yd_origins.specs.Table.{IsTable};
ghost use Rattle.yd_order.specs.Counting.{id_of_rank};
ghost use Rattle.yd_order.specs.Filling.{AreFilled};
ghost use Rattle.yd_order.specs.Linking.{AreLinked, id_at, table_of_linked};
ghost use Rattle.yd_order.specs.Numbering.{IsNumbering};
ghost use Rattle.yd_order.specs.Rows.{AreAscending, table_of};
ghost use Rattle.yd_order.specs.Seating.{AllBelow, StandIn};
ghost use Rattle.yd_order.specs.Stretch.{EndsAtClock, rows_of_stretches, among_rows};

use crate::counting::{Rank, counted};
use crate::fault::NoMemory;
use crate::filling::filled;
use crate::heading::heads_of;
use crate::linking::{LinkedRow, linked};
use crate::numbering::numbered;
use crate::rows::{OriginRow, ascending};
use crate::scanning::scanned;
use crate::seating::{all_stand, are_seated, seats_of};
use crate::stretch::Stretch;
use std::alloc::Global;
use yd_ids::Id;

/// The ids of the stretches in the order that their origins give, where a right origin that is not
/// the id of one of them counts as absent.
///
/// What it takes depends on the scan, which proposes an order. Where this is the answer, the call
/// takes the sorting of the units, bytes with the units, and for each unit a few steps and one for
/// each row of units, each directly behind the one before, that stands between its left origin and
/// it: so time with the square where all were put in front of one another. Else it takes time and
/// bytes with the square of how many units there are. For units that keep the edit rules the scan is
/// made to propose the answer; no clause says that it does. A deleted run in a list counts with each
/// of its units.
pub fn arrange_stretches(alloc: Global, stretches: &[Stretch]) -> Result<Vec<Id>, NoMemory>
    requires clocks { Each EndsAtClock stretches.now }
    requires table { IsTable (among_rows (rows_of_stretches stretches.now)) }
    ensures { IfOk result (λ order.
        order.items ≡ origin_order (among_rows (rows_of_stretches stretches.now))) }
{
    let rows = ascending(alloc, stretches)?;
    let order = arrange_rows(alloc, &rows)?;
    Ok(order)
}

/// The ids of ascending rows in the order that their origins give.
fn arrange_rows(alloc: Global, rows: &[OriginRow]) -> Result<Vec<Id>, NoMemory>
    requires ascending { AreAscending rows.now }
    requires table { IsTable (among_rows (table_of rows.now)) }
    ensures { IfOk result (λ order. order.items ≡ origin_order (among_rows (table_of rows.now))) }
{
    let rows = linked(alloc, rows)?;
    let order = arrange_linked(alloc, &rows)?;
    Ok(order)
}

/// The ids of linked rows in the order that their links give: what the scan proposes, if it passes
/// the check.
fn arrange_linked(alloc: Global, rows: &[LinkedRow]) -> Result<Vec<Id>, NoMemory>
    requires links { AreLinked rows.now }
    requires table { IsTable (table_of_linked rows.now) }
    ensures { IfOk result (λ order. order.items ≡ origin_order (table_of_linked rows.now)) }
{
    let by_neighbours = numbered(alloc, rows)?;
    let proposal = scanned(alloc, rows, &by_neighbours)?;
    if let Some(ids) = accepted(alloc, rows, &proposal)? {
        return Ok(ids);
    }
    let ids = arrange_pairs(alloc, rows, &by_neighbours)?;
    Ok(ids)
}

/// The ids of the rows as they are proposed, if each row is there once, and they stand there as
/// their links ask.
pub(crate) fn accepted(
    alloc: Global,
    rows: &[LinkedRow],
    proposal: &[usize],
) -> Result<Option<Vec<Id>>, NoMemory>
    requires links { AreLinked rows.now }
    requires table { IsTable (table_of_linked rows.now) }
    ensures told { IfOk result (λ accepted. IsSome accepted ↔ StandIn rows.now proposal.now) }
    ensures order { IfOk result (λ accepted. IfSome accepted (λ ids.
        ids.items ≡ origin_order (table_of_linked rows.now))) }
{
    let seats = seats_of(alloc, proposal)?;
    if !are_seated(rows.len(), proposal, &seats) {
        return Ok(None);
    }
    let heads = heads_of(alloc, rows, proposal, &seats)?;
    if !all_stand(rows, proposal, &seats, &heads) {
        return Ok(None);
    }
    let ids = ids_at(alloc, rows, proposal)?;
    Ok(Some(ids))
}

/// The ids of the rows at places.
fn ids_at(alloc: Global, rows: &[LinkedRow], places: &[usize]) -> Result<Vec<Id>, NoMemory>
    requires { AllBelow (length rows.now) places.now }
    ensures { IfOk result (λ ids. ids.items ≡ map (id_at rows.now) places.now) }
{
    let mut ids = Vec::new(alloc);
    for at in places {
        ids.push(rows[*at].id)?;
    }
    Ok(ids)
}

/// The ids of linked rows in the order that a table over all pairs of rows gives.
fn arrange_pairs(
    alloc: Global,
    rows: &[LinkedRow],
    by_neighbours: &[usize],
) -> Result<Vec<Id>, NoMemory>
    requires links { AreLinked rows.now }
    requires table { IsTable (table_of_linked rows.now) }
    requires numbering { IsNumbering rows.now by_neighbours.now }
    ensures { IfOk result (λ order. order.items ≡ origin_order (table_of_linked rows.now)) }
{
    let cells = filled(alloc, rows, by_neighbours)?;
    let order = sorted(alloc, rows, &cells)?;
    Ok(order)
}

/// The ids of the rows, sorted by how many rows are before each, ties by id.
fn sorted(alloc: Global, rows: &[LinkedRow], cells: &[bool]) -> Result<Vec<Id>, NoMemory>
    requires links { AreLinked rows.now }
    requires table { IsTable (table_of_linked rows.now) }
    requires size { length cells.now ≡ length rows.now * length rows.now }
    requires filled { AreFilled rows.now cells.now }
    ensures { IfOk result (λ order. order.items ≡ origin_order (table_of_linked rows.now)) }
{
    let mut ranks = counted(alloc, rows, cells)?;
    ranks.sort_unstable();
    let order = ids_of(alloc, &ranks)?;
    Ok(order)
}

/// The ids of ranks.
fn ids_of(alloc: Global, ranks: &[Rank]) -> Result<Vec<Id>, NoMemory>
    ensures { IfOk result (λ ids. ids.items ≡ map id_of_rank ranks.now) }
{
    let mut ids = Vec::new(alloc);
    for rank in ranks {
        ids.push(rank.id)?;
    }
    Ok(ids)
}
