//! `sync`: an update brought in step with a server over a network.

ghost use Rattle.std.specs.Prelude.{◌≡◌, map, IfOk, IfSome};
ghost use Rattle.yd_words.specs.Each.{Each};
ghost use Rattle.yd_ops.specs.Valid.{IsValidUpdate};
ghost use Rattle.yd_ops.specs.View.{update_value};
ghost use Rattle.yd_serving.specs.Board.{HasEvents, TradesFew, board_of};
ghost use Rattle.yd_serving.specs.Syncing.{IsSyncLinked};
ghost use Rattle.yd_serving.specs.Updates.{SyncsUpdateOn};
ghost use Rattle.yd_files.specs.Seen.{inputs_of};
ghost use Rattle.yd_asking.specs.Command.{sync as syncs};
ghost use Rattle.yd_app.specs.Commands.Serve.{the_update};
ghost use Rattle.yd_app.specs.Link.{link_of};
ghost use Rattle.yd_app.specs.Stopping.{IsNoLinkFault, MakesOver};

use super::reply::{nothing, write_reply};
use std::alloc::Global;
use yd_ending::{Refusal, Stop};
use yd_files::Inputs;
use yd_ops::Update;
use yd_serving::{SyncFault, sync_update};
use yd_world::Switchboard;

/// The bytes of all that a client has which begins with the one update and comes in step with a
/// server at the address, in so many turns at most, in the format of the update's file. A message
/// that is none is refused by its number, counted from 1.
pub fn sync<'a, B: Switchboard>(
    alloc: Global,
    address: &str,
    turns: u64,
    inputs: &Inputs,
    board: &mut B,
) -> Result<Vec<u8>, Stop<'a>>
    requires { Each IsValidUpdate (inputs_of inputs.now).updates }
    ensures makes { MakesOver (link_of
        (board_of (B.told board.old) (B.faults board.old) (B.send_faults board.old))
        (board_of (B.told board.new) (B.faults board.new) (B.send_faults board.new)))
        (syncs address.now turns) (inputs_of inputs.now) result }
    ensures linked { B.is_calm board.old → HasEvents turns (B.told board.old)
        → IsNoLinkFault result × (B.faults board.new ≡ B.faults board.old) }
    ensures few { TradesFew turns
        (board_of (B.told board.old) (B.faults board.old) (B.send_faults board.old))
        (board_of (B.told board.new) (B.faults board.new) (B.send_faults board.new)) }
{
    let updates = inputs.updates.as_slice();
    match sync_one(alloc, address, turns, updates, board) {
        Ok(Some(reply)) => {
            let bytes = write_reply(alloc, &inputs.kinds, &reply)?;
            Ok(bytes)
        }
        Ok(None) => Err(Stop::NoStep2),
        Err(SyncFault::NoMemory) => Err(Stop::NoMemory),
        Err(SyncFault::NoLink) => Err(Stop::LinkFault),
        Err(SyncFault::Refused(number, fault)) => {
            Err(Stop::Refused(Refusal::OfMessage { number, fault }))
        }
    }
}

// The first of the updates is brought in step; without one, one that says nothing.
fn sync_one<B: Switchboard>(
    alloc: Global,
    address: &str,
    turns: u64,
    updates: &[Update],
    board: &mut B,
) -> Result<Option<Update>, SyncFault>
    requires { Each IsValidUpdate (map update_value updates.now) }
    ensures synced { SyncsUpdateOn turns (the_update (map update_value updates.now))
        (board_of (B.told board.old) (B.faults board.old) (B.send_faults board.old))
        (board_of (B.told board.new) (B.faults board.new) (B.send_faults board.new)) result }
    ensures valid { IfOk result (λ found.
        IfSome found (λ reply. IsValidUpdate (update_value reply))) }
    ensures linked { B.is_calm board.old → HasEvents turns (B.told board.old)
        → IsSyncLinked result × (B.faults board.new ≡ B.faults board.old) }
{
    match updates {
        [update, ..] => sync_update(alloc, update, board, address, turns),
        _ => sync_update(alloc, &nothing(alloc), board, address, turns),
    }
}
