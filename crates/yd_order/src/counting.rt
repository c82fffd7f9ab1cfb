//! How many rows are before each.

ghost use Rattle.std.specs.Prelude.{◌≡◌, ◌<◌, ◌*◌, length, IfOk};
ghost use Rattle.yd_order.specs.Counting.{count_at, ranks_of};
ghost use Rattle.yd_order.specs.Filling.{AreFilled};

use crate::fault::NoMemory;
use crate::filling::cell;
use crate::linking::LinkedRow;
use std::alloc::Global;
use yd_ids::Id;

/// How many rows are before one, and its id. Ranks are in order of their counts, then of their ids.
#[derive(Clone, Copy, PartialEq, Eq, PartialOrd, Ord)]
pub struct Rank {
    pub count: usize,
    pub id: Id,
}

/// The ranks of the rows.
pub fn counted(alloc: Global, rows: &[LinkedRow], cells: &[bool]) -> Result<Vec<Rank>, NoMemory>
    requires size { length cells.now ≡ length rows.now * length rows.now }
    requires filled { AreFilled rows.now cells.now }
    ensures { IfOk result (λ ranks. ranks.items ≡ ranks_of rows.now) }
{
    let mut ranks = Vec::new(alloc);
    for at in 0..rows.len() {
        let count = count_before(rows, cells, at);
        ranks.push(Rank {
            count,
            id: rows[at].id,
        })?;
    }
    Ok(ranks)
}

/// How many rows are before the one at a place.
fn count_before(rows: &[LinkedRow], cells: &[bool], at: usize) -> usize
    requires size { length cells.now ≡ length rows.now * length rows.now }
    requires filled { AreFilled rows.now cells.now }
    requires inside { at < length rows.now }
    ensures { result ≡ count_at rows.now at }
{
    let mut count = 0;
    for other in 0..rows.len() {
        if cell(cells, rows.len(), other, at) {
            count += 1;
        }
    }
    count
}
