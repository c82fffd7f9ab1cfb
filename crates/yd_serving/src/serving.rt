//! A server's loop: one event after another.

ghost use Rattle.std.specs.Prelude.{◌≡◌};
ghost use Rattle.yd_world.specs.Traffic.{HasEvent};
ghost use Rattle.yd_machines.specs.HubStep.{hub_state};
ghost use Rattle.yd_serving.specs.Board.{HasEvents, board_of};
ghost use Rattle.yd_serving.specs.Serving.{IsLinked, ServesOn};

use crate::carrying::carry;
use crate::fault::ServeFault;
use crate::settling::settle;
use std::alloc::Global;
use yd_machines::{Hub, is_answering, vector_of};
use yd_world::{Switchboard, Way};

/// Serves a hub at an address for so many turns (own). A turn takes one event of the board, steps
/// the hub, and carries out what it orders, with all that follows sends that fail. The loop ends
/// early where the board does not start or has no event, and where memory ends.
pub fn serve<B: Switchboard>(
    alloc: Global,
    hub: &mut Hub,
    board: &mut B,
    address: &str,
    turns: u64,
) -> Result<(), ServeFault>
    ensures served { ServesOn turns (hub_state hub.old) (hub_state hub.new)
        (board_of (B.told board.old) (B.faults board.old) (B.send_faults board.old))
        (board_of (B.told board.new) (B.faults board.new) (B.send_faults board.new)) result }
    ensures calm { B.is_calm board.old → B.is_calm board.new }
    ensures linked { B.is_calm board.old → HasEvents turns (B.told board.old)
        → IsLinked result × (B.faults board.new ≡ B.faults board.old) }
{
    board.start(address, Way::Listen)?;
    serve_turns(alloc, hub, board, turns)
}

// So many turns over a board that has started.
fn serve_turns<B: Switchboard>(
    alloc: Global,
    hub: &mut Hub,
    board: &mut B,
    turns: u64,
) -> Result<(), ServeFault>
    ensures served { ServesOn turns (hub_state hub.old) (hub_state hub.new)
        (board_of (B.told board.old) (B.faults board.old) (B.send_faults board.old))
        (board_of (B.told board.new) (B.faults board.new) (B.send_faults board.new)) result }
    ensures calm { B.is_calm board.old → B.is_calm board.new }
    ensures linked { B.is_calm board.old → HasEvents turns (B.told board.old)
        → IsLinked result × (B.faults board.new ≡ B.faults board.old) }
{
    for _ in 0..turns {
        serve_turn(alloc, hub, board)?;
    }
    Ok(())
}

// One turn: an event, the hub's step, what it orders, and what follows sends that fail.
fn serve_turn<B: Switchboard>(alloc: Global, hub: &mut Hub, board: &mut B) -> Result<(), ServeFault>
    ensures served { ServesOn 1 (hub_state hub.old) (hub_state hub.new)
        (board_of (B.told board.old) (B.faults board.old) (B.send_faults board.old))
        (board_of (B.told board.new) (B.faults board.new) (B.send_faults board.new)) result }
    ensures calm { B.is_calm board.old → B.is_calm board.new }
    ensures linked { B.is_calm board.old → HasEvent (B.told board.old)
        → IsLinked result × (B.faults board.new ≡ B.faults board.old) }
{
    let replica = hub.replica();
    is_answering(replica);
    let _vector = vector_of(replica);
    let event = board.next()?;
    let actions = hub.step(&event)?;
    let mut failed = Vec::new(alloc);
    carry(alloc, board, actions.as_slice(), &mut failed)?;
    settle(alloc, hub, board, event.now, &mut failed)?;
    Ok(())
}
