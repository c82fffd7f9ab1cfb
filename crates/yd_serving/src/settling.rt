//! What follows sends that failed: the hub hears that their sessions ended.

ghost use Rattle.std.specs.Prelude.{◌≡◌, ◌<◌, ◌∷◌, length};
ghost use Rattle.yd_machines.specs.HubStep.{hub_state};
ghost use Rattle.yd_serving.specs.Board.{board_of};
ghost use Rattle.yd_serving.specs.Settled.{AreEnding, SettlesOn};

use crate::carrying::carry;
use crate::fault::NoMemory;
use std::alloc::Global;
use yd_machines::Hub;
use yd_world::{Event, Session, Switchboard, What};

/// Tells the hub of each session that failed that it is closed, in the order of the failures, and
/// carries out what that orders. A session that fails in this comes behind those that failed before.
pub fn settle<B: Switchboard>(
    alloc: Global,
    hub: &mut Hub,
    board: &mut B,
    now: u64,
    failed: &mut Vec<u64>,
) -> Result<(), NoMemory>
    requires { AreEnding (hub_state hub.old) failed.old.items }
    ensures settled { SettlesOn now (hub_state hub.old) (hub_state hub.new) failed.old.items
        (board_of (B.told board.old) (B.faults board.old) (B.send_faults board.old))
        (board_of (B.told board.new) (B.faults board.new) (B.send_faults board.new)) result }
    ensures calm { B.is_calm board.old → B.is_calm board.new }
    ensures faults { B.faults board.new ≡ B.faults board.old }
{
    while failed.len() > 0 {
        let session = first_of(failed);
        let what = What::Closed(Session(session));
        let actions = hub.step(&Event { now, what })?;
        carry(alloc, board, actions.as_slice(), failed)?;
    }
    Ok(())
}

// Takes the first number.
fn first_of(numbers: &mut Vec<u64>) -> u64
    requires { 0 < length numbers.old.items }
    ensures { numbers.old.items ≡ result ∷ numbers.new.items }
{
    numbers.remove(0)
}
