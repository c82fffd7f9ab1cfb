//! Holding what has all that it needs.

ghost use Rattle.std.specs.Prelude.{◌≡◌, ◌<◌, true, length, HoldsAt, OnOk, OnErr, IfOk};
ghost use Rattle.yd_entries.specs.Entries.{GrowBy};
ghost use Rattle.yd_received.specs.Received.{taken_of};
ghost use Rattle.yd_held.specs.Held.{held_value};
ghost use Rattle.yd_held.specs.Holding.{IsHolding, HoldsRest, OnlyHolds, HoldsEntry, count_waiting};
ghost use Rattle.yd_held.specs.Noted.{AreNoted, AreMissing};
ghost use Rattle.yd_held.specs.Readiness.{is_ready};
ghost use Rattle.yd_held.specs.Turn.{HoldsInTurn};

use crate::fault::NoMemory;
use crate::finding::Near;
use crate::noting::wake;
use crate::parts::HeldParts;
use crate::placing::place_for;
use crate::trying::next_ready;
use yd_ids::Client;
use yd_received::Entries;

/// Holds what can be held, where these clients are to be tried, and gives the numbers of the entries
/// that became held, in the order in which they did. Where memory ends, names may have been added and
/// units held; put to wait again, these are as they were.
pub(crate) fn hold_all(held: &mut HeldParts, tries: Vec<Client>) -> Result<Vec<usize>, NoMemory>
    requires holding { IsHolding (held_value held.old) }
    requires noted { AreNoted held.old.vector held.old.received.runs held.old.lacks.items
        tries.items held.old.received.entries }
    requires missing { AreMissing held.old.vector held.old.lacks.items }
    ensures held { OnOk result (HoldsRest (held_value held.old) (held_value held.new)) }
    ensures turn { IfOk result (λ order.
        HoldsInTurn order.items (held_value held.old) (held_value held.new)) }
    ensures only { OnlyHolds (held_value held.old) (held_value held.new) }
{
    let mut tries = tries;
    let mut order = Vec::new(held.received.allocator());
    let mut near = near_end(held.received.entries());
    while let Some(at) = next_ready(
        &held.received,
        &held.vector,
        &mut held.lacks,
        &mut tries,
        near,
    )? {
        order.push(at)?;
        hold_at(held, at, &mut near)?;
        wake(&mut held.lacks, &mut tries, held.received.entries().get(at))?;
    }
    Ok(order)
}

/// What comes one after another is next at the end, so this is near.
fn near_end(entries: &Entries) -> Near {
    let last = entries.len().saturating_sub(1);
    Near {
        first: last.saturating_sub(1),
        second: last,
    }
}

/// Holds an entry that is ready. Then it is near.
fn hold_at(held: &mut HeldParts, at: usize, near: &mut Near) -> Result<(), NoMemory>
    requires holding { IsHolding (held_value held.old) }
    requires inside { at < length held.old.received.entries }
    requires ready { HoldsAt (λ t. is_ready held.old.vector held.old.received.runs t ≡ true)
        held.old.received.entries at }
    ensures holding { OnOk result (IsHolding (held_value held.new)) }
    ensures operations { OnOk result (taken_of held.new.received ≡ taken_of held.old.received) }
    ensures fewer { OnOk result (count_waiting held.new.received.entries
        < count_waiting held.old.received.entries) }
    ensures held { OnOk result (HoldsEntry at held.old.received.entries
        held.new.received.entries held.old.vector held.new.vector) }
    ensures runs { held.new.received.runs ≡ held.old.received.runs }
    ensures lacks { held.new.lacks ≡ held.old.lacks }
    ensures unchanged { OnErr result ((held.new.received ≡ held.old.received)
        × (held.new.vector ≡ held.old.vector)) }
    ensures grows { GrowBy held.old.names held.new.names }
{
    let entry = held.received.entries().get(at);
    let place = place_for(&held.received, &mut held.names, entry, near)?;
    held.vector
        .raise(entry.id.client, entry.id.clock + entry.len)?;
    held.received.hold(at, place);
    near.first = at;
    Ok(())
}
