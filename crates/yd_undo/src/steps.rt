//! The steps that undo an entry.

ghost use Rattle.std.specs.Prelude.{◌≡◌, IfOk};
ghost use Rattle.yd_making.specs.Steps.{steps_value};
ghost use Rattle.yd_subsets.specs.Part.{part_that};
ghost use Rattle.yd_undo.specs.Remade.{seen_of};
ghost use Rattle.yd_undo.specs.Steps.{is_live, undo_steps};

use crate::entry::Entry;
use crate::keys::add_keys;
use crate::remaking::add_groups;
use std::alloc::Global;
use yd_doc::{Replica, Step, StepList};
use yd_ids::IdSet;
use yd_making::NoMemory;
use yd_subsets::{difference, part_below};

/// The steps that undo an entry on a replica.
pub fn undo_steps(alloc: Global, replica: &Replica, entry: &Entry) -> Result<StepList, NoMemory>
    ensures { IfOk result (λ steps.
        steps_value steps ≡ undo_steps (seen_of replica.now) entry.now) }
{
    let live = live_part(alloc, replica, &entry.inserted)?;
    let mut steps = StepList::new(alloc);
    steps.push(Step::Remove(live))?;
    add_groups(alloc, replica, &entry.deleted, &mut steps)?;
    add_keys(alloc, replica, &entry.deleted, &mut steps)?;
    Ok(steps)
}

/// The ids of a set that are held and not deleted.
fn live_part(alloc: Global, replica: &Replica, ids: &IdSet) -> Result<IdSet, NoMemory>
    ensures { IfOk result (λ live. live ≡ part_that (is_live (seen_of replica.now)) ids.now) }
{
    // The spans are looked at, since they are in range.
    let _spans = ids.spans();
    let held = part_below(alloc, ids, replica.vector())?;
    let live = difference(alloc, &held, replica.deletes())?;
    Ok(live)
}
