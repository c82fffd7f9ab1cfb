//! The clocks of clients kept twice, so that no update copies them.

ghost use Rattle.std.specs.Prelude.{◌≡◌, IfOk};
ghost use Rattle.yd_ids.specs.Vector.{clock_of};
ghost use Rattle.yd_held.specs.Held.{held_value, HoldsAll};
ghost use Rattle.yd_held.specs.Turn.{AreHeldInTurn};
ghost use Rattle.yd_held.specs.Twin.{IsTwinOf};

use crate::fault::NoMemory;
use crate::parts::HeldParts;
use yd_ids::Vector;

/// The same clocks once more: the twin, or a copy where there is none.
pub(crate) fn same_again(vector: &Vector, twin: Option<Vector>) -> Result<Vector, NoMemory>
    requires { IsTwinOf vector.now twin }
    ensures { IfOk result (λ again. again ≡ vector.now) }
{
    if let Some(again) = twin {
        return Ok(again);
    }
    let copy = vector.copy()?;
    Ok(copy)
}

/// The clocks that are reached, made of those from before the entries with these numbers became held.
/// It takes a raise for each of these.
pub(crate) fn caught_up(
    held: &HeldParts,
    before: Vector,
    order: &[usize],
) -> Result<Vector, NoMemory>
    requires holds { HoldsAll (held_value held.now) }
    requires turn { AreHeldInTurn held.now.received.runs held.now.received.entries
        (clock_of before) order.now (clock_of held.now.vector) }
    ensures { IfOk result (λ twin. twin ≡ held.now.vector) }
{
    // That both are vectors says that they are one where their clocks are.
    let _ = held.vector.iter();
    let _ = before.iter();
    let entries = held.received.entries();
    let mut twin = before;
    for at in order {
        let entry = entries.get(*at);
        twin.raise(entry.id.client, entry.id.clock + entry.len)?;
    }
    Ok(twin)
}
