//! Which units of stretches are before which.

ghost use Rattle.std.specs.Prelude.{◌≡◌, ◌<◌, ◌*◌, length, map, IfOk, IfSome, IsSome};
ghost use Rattle.yd_words.specs.Each.{Each};
ghost use Rattle.yd_origins.specs.Table.{IsTable};
ghost use Rattle.yd_order.specs.Comparing.{Compares, HasCells, is_told_before};
ghost use Rattle.yd_order.specs.Filling.{cell_at};
ghost use Rattle.yd_order.specs.Linking.{AreLinked, table_of_linked};
ghost use Rattle.yd_order.specs.Rows.{AreAscending, table_of};
ghost use Rattle.yd_order.specs.Stretch.{EndsAtClock, rows_of_stretches, among_rows};
ghost use Rattle.yd_order.specs.declared.linking.LinkedRow.{LinkedRow as LinkedRowSeen};

use crate::arranging::accepted;
use crate::fault::NoMemory;
use crate::filling::{cell, filled};
use crate::linking::{LinkedRow, linked};
use crate::numbering::numbered;
use crate::rows::{OriginRow, ascending};
use crate::scanning::scanned;
use crate::stretch::Stretch;
use std::alloc::Global;
use yd_ids::Id;

/// Ids of units, and which of them are before which others by their origins.
#[derive(Drop)]
pub struct Comparison {
    /// The ids: in order where that is strict, and else ascending.
    pub ids: Vec<Id>,
    /// Each id is before those behind it, and before no other.
    pub is_strict: bool,
    /// Where the order is not strict, a cell for each two ids, row by row.
    pub cells: Vec<bool>,
}

impl Comparison {
    /// The id at one place is before that at another.
    pub fn is_before(&self, a: usize, b: usize) -> bool
        requires size { HasCells self.now.is_strict self.now.cells.items
            (length self.now.ids.items) }
        requires inside { (a < length self.now.ids.items) × (b < length self.now.ids.items) }
        ensures { result ≡ is_told_before self.now.is_strict self.now.cells.items
            (length self.now.ids.items) a b }
    {
        if self.is_strict {
            return a < b;
        }
        cell(&self.cells, self.ids.len(), a, b)
    }
}

/// Which units of the stretches are before which, by the origins that they have, where a right origin
/// that is not the id of one of them counts as absent. It takes what `arrange_stretches` takes.
pub fn compare_stretches(alloc: Global, stretches: &[Stretch]) -> Result<Comparison, NoMemory>
    requires clocks { Each EndsAtClock stretches.now }
    requires table { IsTable (among_rows (rows_of_stretches stretches.now)) }
    ensures { IfOk result (λ made. Compares (among_rows (rows_of_stretches stretches.now))
        made.ids.items made.is_strict made.cells.items) }
{
    let rows = ascending(alloc, stretches)?;
    let made = compare_rows(alloc, &rows)?;
    Ok(made)
}

/// Which ascending rows are before which.
fn compare_rows(alloc: Global, rows: &[OriginRow]) -> Result<Comparison, NoMemory>
    requires ascending { AreAscending rows.now }
    requires table { IsTable (among_rows (table_of rows.now)) }
    ensures { IfOk result (λ made. Compares (among_rows (table_of rows.now))
        made.ids.items made.is_strict made.cells.items) }
{
    let rows = linked(alloc, rows)?;
    let made = compare_linked(alloc, &rows)?;
    Ok(made)
}

/// Which linked rows are before which: as they stand in what the scan proposes, if it passes the
/// check, and else as a table over all pairs says.
fn compare_linked(alloc: Global, rows: &[LinkedRow]) -> Result<Comparison, NoMemory>
    requires links { AreLinked rows.now }
    requires table { IsTable (table_of_linked rows.now) }
    ensures { IfOk result (λ made. Compares (table_of_linked rows.now)
        made.ids.items made.is_strict made.cells.items) }
{
    let by_neighbours = numbered(alloc, rows)?;
    let proposal = scanned(alloc, rows, &by_neighbours)?;
    if let Some(ids) = accepted(alloc, rows, &proposal)? {
        return Ok(Comparison {
            ids,
            is_strict: true,
            cells: Vec::new(alloc),
        });
    }
    let cells = filled(alloc, rows, &by_neighbours)?;
    let ids = ids_of_rows(alloc, rows)?;
    Ok(Comparison {
        ids,
        is_strict: false,
        cells,
    })
}

/// The ids of the rows.
fn ids_of_rows(alloc: Global, rows: &[LinkedRow]) -> Result<Vec<Id>, NoMemory>
    ensures { IfOk result (λ ids. ids.items ≡ map (λ (row : LinkedRowSeen). row.id) rows.now) }
{
    let mut ids = Vec::new(alloc);
    for row in rows {
        ids.push(row.id)?;
    }
    Ok(ids)
}
