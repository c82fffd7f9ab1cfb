//! What is lent, and what was received, written out as a grouped update.

ghost use Rattle.std.specs.Prelude.{◌≡◌, map, IfOk};
ghost use Rattle.yd_words.specs.Each.{Each};
ghost use Rattle.yd_ops.specs.View.{update_value};
ghost use Rattle.yd_grouping.specs.Building.{finished, all_pushed, nothing_built};
ghost use Rattle.yd_grouping.specs.Grouped.{grouping_of};
ghost use Rattle.yd_entries.specs.Entries.{IsTakenOf, AreInOrder, operations_in};
ghost use Rattle.yd_grouping.specs.Groups.{operations_of_groups};
ghost use Rattle.yd_merge.specs.Lending.{IsLent, AreInTurn, lent_group};
ghost use Rattle.yd_merge.specs.Told.{group_of_entry};

use crate::fault::NoMemory;
use crate::lending::Lent;
use crate::parts::group_of;
use std::alloc::Global;
use yd_building::Builder;
use yd_ids::IdSet;
use yd_ops::{Run, Update};
use yd_received::Entries;

/// The grouped update of what is lent, with these deletions, in time of the units that are told.
pub fn write_lent(alloc: Global, lents: &[Lent<'_>], deletes: IdSet) -> Result<Update, NoMemory>
    requires each { Each IsLent lents.now }
    requires in_turn { AreInTurn (map lent_group lents.now) }
    ensures { IfOk result (λ update. update_value update
        ≡ grouping_of (operations_of_groups (map lent_group lents.now)) deletes) }
{
    let mut builder = Builder::new(alloc);
    for lent in lents {
        builder.push(lent.copy()?)?;
    }
    let update = builder.finish(deletes)?;
    Ok(update)
}

/// The grouped update of entries, with these deletions, in time of the units that are told.
pub fn written(
    alloc: Global,
    runs: &[Run],
    entries: &Entries,
    deletes: IdSet,
) -> Result<Update, NoMemory>
    requires each { Each (IsTakenOf runs.now) entries.now }
    requires in_order { AreInOrder entries.now }
    ensures { IfOk result (λ update. update_value update
        ≡ grouping_of (operations_in runs.now entries.now) deletes) }
{
    let mut builder = Builder::new(alloc);
    for entry in entries.iter() {
        builder.push(group_of(alloc, runs, entry)?)?;
    }
    let update = builder.finish(deletes)?;
    Ok(update)
}
