//! Taking in an update, and what that did.

ghost use Rattle.std.specs.Prelude.{◌≡◌, ◌↔◌, filter, IsTrue, OnOk, OnErr, IfOk};
ghost use Rattle.yd_ops.specs.Operation.{operations_of};
ghost use Rattle.yd_ops.specs.Valid.{IsValidUpdate};
ghost use Rattle.yd_ops.specs.View.{update_value};
ghost use Rattle.yd_ops.specs.Received.{groups_of};
ghost use Rattle.yd_entries.specs.Entries.{AreTaken, operations_in, is_of_first, GrowBy};
ghost use Rattle.yd_entries.specs.Taking.{BringsOperation, AreUnchanged};
ghost use Rattle.yd_received.specs.Received.{brings, lowers, LowersOne, IsBrought};
ghost use Rattle.yd_received.specs.Structs.{TakesIn, kept_of, IsBroughtBy};

use crate::brought::Brought;
use crate::structs::take_blocks;
use yd_entries::{Entries, NoMemory};
use yd_ops::{Run, Update};

/// Takes in the operations of an update. All units stay at their places. Where memory ends nothing
/// was taken.
pub(crate) fn take_update(
    runs: &mut Vec<Run>,
    taken: &mut Entries,
    update: Update,
) -> Result<Brought, NoMemory>
    requires update { IsValidUpdate (update_value update) }
    requires taken { AreTaken runs.old.items taken.old }
    ensures taken { OnOk result (TakesIn runs.old.items taken.old
        runs.new.items taken.new (groups_of (update_value update))) }
    ensures brings { IfOk result (λ brought. IsTrue (brings brought)
        ↔ BringsOperation (update_value update)
        (operations_in runs.old.items taken.old)) }
    ensures lowers { IfOk result (λ brought. IsTrue (lowers brought)
        → LowersOne (operations_of (update_value update))
        (operations_in runs.old.items taken.old)) }
    ensures brought { IfOk result (λ brought. IsBrought brought
        (record { runs = runs.old.items; entries = taken.old })
        (record { runs = runs.new.items; entries = taken.new })) }
    ensures grows { OnOk result (GrowBy runs.old.items runs.new.items) }
    ensures unchanged { OnErr result
        (AreUnchanged runs.old.items taken.old runs.new.items taken.new) }
{
    let alloc = *runs.allocator();
    let count = runs.len();
    let mut before = None;
    match take_blocks(alloc, runs, taken, &mut before, update.blocks.into_vec()) {
        Ok(more) => Ok(brought(before, count, more)),
        Err(NoMemory) => {
            runs.truncate(count);
            back(taken, before, count);
            Err(NoMemory)
        }
    }
}

/// What an update brought, which brings something or nothing. Where it lowered something, what was
/// kept aside of the first runs is handed out.
fn brought(before: Option<Entries>, count: usize, brings: bool) -> Brought
    ensures { IsBroughtBy count before brings result }
{
    if !brings {
        return Brought::Nothing;
    }
    match before {
        None => Brought::Added,
        Some(mut entries) => {
            entries.keep_first(count);
            Brought::Lowered(entries)
        }
    }
}

/// Puts back what was taken of the first runs.
fn back(taken: &mut Entries, before: Option<Entries>, count: usize)
    ensures { taken.new ≡ filter (is_of_first count) (kept_of before taken.old) }
{
    if let Some(entries) = before {
        *taken = entries;
    }
    taken.keep_first(count);
}
