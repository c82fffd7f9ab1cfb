//! Where updates disagree.

ghost use Rattle.std.specs.Prelude.{◌≡◌, map, IfOk};
ghost use Rattle.yd_words.specs.Each.{Each};
ghost use Rattle.yd_ops.specs.Valid.{IsValidUpdate};
ghost use Rattle.yd_ops.specs.View.{update_value};
ghost use Rattle.yd_grouping.specs.Disagreement.{disagreement_of};

use crate::fault::NoMemory;
use crate::parting::first_parted;
use crate::spelled::{full_of, runs_in_order};
use crate::sweep::{Sweep, first_of};
use std::alloc::Global;
use yd_ids::Id;
use yd_ops::Update;

/// The smallest id on which updates disagree, and none exactly where they agree (own). They disagree
/// on an id where two operations that are not gone have other neighbours or another list, or where
/// two full ones hold other units. They also do where one update spells a pair in full, and one just
/// one of its halves less than full; then it is the id of the high half. It takes the time of sorting
/// the runs and of comparing each with one other.
pub fn disagree(alloc: Global, updates: &[Update]) -> Result<Option<Id>, NoMemory>
    requires { Each IsValidUpdate (map update_value updates.now) }
    ensures { IfOk result (λ found. found ≡ disagreement_of (map update_value updates.now)) }
{
    let runs = runs_in_order(alloc, updates)?;
    let full = full_of(alloc, &runs)?;
    let runs = Sweep::new(alloc, runs)?;
    let full = Sweep::new(alloc, full)?;
    let parted = first_parted(alloc, updates, &full)?;
    let contents = first_of(full.first_content(), parted);
    Ok(first_of(runs.first_place(), contents))
}
