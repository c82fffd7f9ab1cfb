//! The order of the operations of runs.

ghost use Rattle.std.specs.Prelude.{◌≡◌, map, IfOk};
ghost use Rattle.yd_words.specs.Each.{Each};
ghost use Rattle.yd_meaning.specs.Order.{rows_of};
ghost use Rattle.yd_ops.specs.View.{run_value};
ghost use Rattle.yd_order.specs.Runs.{operations_of_runs, RunEndsAtClock, stretch_of};
ghost use Rattle.yd_order.specs.Stretch.{among_rows};
ghost use Rattle.yd_origins.specs.Sorted.{origin_order};
ghost use Rattle.yd_origins.specs.Table.{IsTable};

use crate::arranging::arrange_stretches;
use crate::fault::NoMemory;
use crate::stretch::Stretch;
use std::alloc::Global;
use yd_ids::Id;
use yd_ops::Run;

/// The ids of the runs' operations in the order that their origins give, where a right origin that
/// is not one of these operations counts as absent. It takes time and bytes as `arrange_stretches`
/// does of as many units.
pub fn arrange(alloc: Global, runs: &[Run]) -> Result<Vec<Id>, NoMemory>
    requires clocks { Each RunEndsAtClock (map run_value runs.now) }
    requires table { let operations = operations_of_runs (map run_value runs.now) in
        IsTable (among_rows (rows_of operations)) }
    ensures { let operations = operations_of_runs (map run_value runs.now) in
        IfOk result (λ order. order.items ≡ origin_order (among_rows (rows_of operations))) }
{
    let stretches = stretches_of(alloc, runs)?;
    let order = arrange_stretches(alloc, &stretches)?;
    Ok(order)
}

/// What the order sees of the runs.
fn stretches_of(alloc: Global, runs: &[Run]) -> Result<Vec<Stretch>, NoMemory>
    ensures { IfOk result (λ stretches.
        stretches.items ≡ map stretch_of (map run_value runs.now)) }
{
    let mut stretches = Vec::new(alloc);
    for run in runs {
        stretches.push(Stretch {
            id: run.id,
            len: run.len(),
            left: run.left,
            right: run.right,
        })?;
    }
    Ok(stretches)
}
