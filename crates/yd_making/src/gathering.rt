//! What steps remove.

ghost use Rattle.std.specs.Prelude.{◌≡◌, IfOk};
ghost use Rattle.yd_editing.specs.Made.{removed_by};
ghost use Rattle.yd_making.specs.Steps.{step_value, steps_value, removed_with};

use crate::fault::NoMemory;
use crate::step::Step;
use std::alloc::Global;
use yd_ids::IdSet;

/// The ids that steps remove.
pub(crate) fn removed(alloc: Global, steps: &[Step]) -> Result<IdSet, NoMemory>
    ensures { IfOk result (λ set. set ≡ removed_by (steps_value steps.now)) }
{
    let mut removed = IdSet::new(alloc);
    let mut i = steps.len();
    while i > 0 {
        i -= 1;
        removed = with_step(removed, &steps[i])?;
    }
    Ok(removed)
}

/// The ids with those that a step removes.
fn with_step(removed: IdSet, step: &Step) -> Result<IdSet, NoMemory>
    ensures { IfOk result (λ set. set ≡ removed_with (step_value step.now) removed) }
{
    match step {
        Step::Make { .. } => Ok(removed),
        Step::Remove(spans) => {
            let mut all = spans.copy()?;
            all.union(&removed)?;
            Ok(all)
        }
    }
}
