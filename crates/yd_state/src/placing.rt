//! Entries that became held, one after another.

ghost use Rattle.std.specs.Prelude.{OnOk, OnErr};
ghost use Rattle.yd_received.specs.Received.{held_of};
ghost use Rattle.yd_kept.specs.Kept.{KeepsHeld};
ghost use Rattle.yd_state.specs.Back.{CanBeUndone};
ghost use Rattle.yd_state.specs.Placing.{CanBePlaced, KeepsIds, PlacesAll};

use crate::back::take_out;
use crate::entry::place_entry;
use yd_held::Held;
use yd_kept::Kept;
use yd_ops::NoMemory;

/// Puts the units of the entries with these numbers into the store, one entry after another. The
/// store has the ids of what was held before. It takes a copy of the units, and for each entry a few look-ups
/// and its scan. Where it finds no memory, no unit has changed.
pub(crate) fn place(kept: &mut Kept, held: &Held, order: &[usize]) -> Result<(), NoMemory>
    requires { CanBePlaced held.now order.now kept.old }
    ensures ids { OnOk result (KeepsIds (held_of held.now.received) kept.new) }
    ensures placed { OnOk result (PlacesAll held.now kept.old kept.new) }
    ensures out { OnOk result (CanBeUndone held.now order.now kept.old kept.new) }
    ensures unchanged { OnErr result (KeepsHeld kept.old kept.new) }
{
    // That both are sound says which clocks their units have.
    let _ = held.received();
    let _ = kept.store();
    let mut done = 0;
    while done < order.len() {
        let Ok(()) = place_entry(kept, held, order[done]) else {
            take_out(kept, held, &order[..done]);
            let _ = kept.store();
            return Err(NoMemory);
        };
        done += 1;
    }
    Ok(())
}
