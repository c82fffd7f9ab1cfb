//! One row for each unit of stretches.

ghost use Rattle.std.specs.Prelude.{◌≡◌, ◌++◌, IfOk, OnOk};
ghost use Rattle.std.specs.List.Sorted.{IsPermutation};
ghost use Rattle.yd_words.specs.Each.{Each};
ghost use Rattle.yd_words.specs.Member.{AreDistinct};
ghost use Rattle.yd_origins.specs.Table.{ids_of};
ghost use Rattle.yd_order.specs.Rows.{AreAscending, table_of};
ghost use Rattle.yd_order.specs.Stretch.{EndsAtClock, rows_of_stretch, rows_of_stretches};

use crate::fault::NoMemory;
use crate::stretch::Stretch;
use std::alloc::Global;
use yd_ids::Id;

/// A row of a table of origins.
#[derive(Clone, Copy)]
pub struct OriginRow {
    pub id: Id,
    pub left: Option<Id>,
    pub right: Option<Id>,
}

/// The rows of the stretches, in order of their ids.
pub fn ascending(alloc: Global, stretches: &[Stretch]) -> Result<Vec<OriginRow>, NoMemory>
    requires clocks { Each EndsAtClock stretches.now }
    requires distinct { AreDistinct (ids_of (rows_of_stretches stretches.now)) }
    ensures ascending { IfOk result (λ rows. AreAscending rows.items) }
    ensures same { IfOk result (λ rows.
        IsPermutation (rows_of_stretches stretches.now) (table_of rows.items)) }
{
    let mut rows = expanded(alloc, stretches)?;
    rows.sort_unstable_by_key(|row| row.id);
    Ok(rows)
}

/// The rows of the stretches, in their order.
fn expanded(alloc: Global, stretches: &[Stretch]) -> Result<Vec<OriginRow>, NoMemory>
    requires { Each EndsAtClock stretches.now }
    ensures { IfOk result (λ rows. table_of rows.items ≡ rows_of_stretches stretches.now) }
{
    let mut rows = Vec::new(alloc);
    for stretch in stretches {
        push_rows(&mut rows, *stretch)?;
    }
    Ok(rows)
}

/// Appends the rows of a stretch.
fn push_rows(rows: &mut Vec<OriginRow>, stretch: Stretch) -> Result<(), NoMemory>
    requires { EndsAtClock stretch }
    ensures { OnOk result
        (table_of rows.new.items ≡ table_of rows.old.items ++ rows_of_stretch stretch) }
{
    let mut left = stretch.left;
    for count in 0..stretch.len {
        let id = Id {
            client: stretch.id.client,
            clock: stretch.id.clock + count,
        };
        rows.push(OriginRow {
            id,
            left,
            right: stretch.right,
        })?;
        left = Some(id);
    }
    Ok(())
}
