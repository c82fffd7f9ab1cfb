//! The units of one entry.

ghost use Rattle.std.specs.Prelude.{◌≡◌, OnOk, OnErr};
ghost use Rattle.yd_entries.specs.Entries.{is_listed_at};
ghost use Rattle.yd_received.specs.Received.{held_of};
ghost use Rattle.yd_kept.specs.Kept.{IsFilled, KeepsHeld};
ghost use Rattle.yd_state.specs.Placing.{IsNextFor, PlacesEntry};

use yd_building::Group;
use yd_held::Held;
use yd_ids::Span;
use yd_kept::Kept;
use yd_merge::group_of;
use yd_ops::NoMemory;
use yd_received::Place;

/// Puts a copy of the units of an entry into the store: into the list of their operations, or into
/// none where they are lost or gone. Where it finds no memory, no unit has changed.
pub(crate) fn place_entry(kept: &mut Kept, held: &Held, at: usize) -> Result<(), NoMemory>
    requires filled { IsFilled (held_of held.now.received) kept.old }
    requires next { IsNextFor held.now kept.old at }
    ensures done { OnOk result (PlacesEntry held.now at kept.old kept.new) }
    ensures unchanged { OnErr result (KeepsHeld kept.old kept.new) }
{
    // That the store is sound says that no run goes over its next clocks.
    let _ = kept.store();
    let received = held.received();
    let entry = received.entries().get(at);
    let Ok(group) = group_of(received.allocator(), received.runs(), entry) else {
        return Err(NoMemory);
    };
    match group {
        Group::Gone(id, len) => {
            let span = Span {
                client: id.client,
                clock: id.clock,
                len,
            };
            kept.hold_gone(span)?;
            Ok(())
        }
        Group::Run(run) => {
            if is_in_list(entry.place) {
                let Ok(()) = kept.hold(run) else {
                    return Err(NoMemory);
                };
                return Ok(());
            }
            let Ok(()) = kept.hold_lost(run) else {
                return Err(NoMemory);
            };
            Ok(())
        }
    }
}

/// Units at the place are in a list.
fn is_in_list(place: Place) -> bool
    ensures { result ≡ is_listed_at place }
{
    match place {
        Place::In(_) => true,
        _ => false,
    }
}
