//! `serve`: an update served over a network.

ghost use Rattle.std.specs.Prelude.{◌≡◌, map, IfOk};
ghost use Rattle.yd_words.specs.Each.{Each};
ghost use Rattle.yd_ops.specs.Valid.{IsValidUpdate};
ghost use Rattle.yd_ops.specs.View.{update_value};
ghost use Rattle.yd_serving.specs.Board.{HasEvents, TradesFew, board_of};
ghost use Rattle.yd_serving.specs.Serving.{IsLinked};
ghost use Rattle.yd_serving.specs.Updates.{ServesUpdateOn};
ghost use Rattle.yd_files.specs.Seen.{inputs_of};
ghost use Rattle.yd_asking.specs.Command.{serve as serves};
ghost use Rattle.yd_app.specs.Commands.Serve.{the_update};
ghost use Rattle.yd_app.specs.Link.{link_of};
ghost use Rattle.yd_app.specs.Stopping.{IsNoLinkFault, MakesOver};

use super::reply::{nothing, write_reply};
use std::alloc::Global;
use yd_ending::Stop;
use yd_files::Inputs;
use yd_ops::Update;
use yd_serving::{ServeFault, serve_update};
use yd_world::Switchboard;

/// The bytes of all that a server has which begins with the one update and takes so many turns at the
/// address, in the format of the update's file.
pub fn serve<'a, B: Switchboard>(
    alloc: Global,
    address: &str,
    turns: u64,
    inputs: &Inputs,
    board: &mut B,
) -> Result<Vec<u8>, Stop<'a>>
    requires { Each IsValidUpdate (inputs_of inputs.now).updates }
    ensures makes { MakesOver (link_of
        (board_of (B.told board.old) (B.faults board.old) (B.send_faults board.old))
        (board_of (B.told board.new) (B.faults board.new) (B.send_faults board.new)))
        (serves address.now turns) (inputs_of inputs.now) result }
    ensures linked { B.is_calm board.old → HasEvents turns (B.told board.old)
        → IsNoLinkFault result × (B.faults board.new ≡ B.faults board.old) }
    ensures few { TradesFew turns
        (board_of (B.told board.old) (B.faults board.old) (B.send_faults board.old))
        (board_of (B.told board.new) (B.faults board.new) (B.send_faults board.new)) }
{
    let updates = inputs.updates.as_slice();
    match serve_one(alloc, address, turns, updates, board) {
        Ok(reply) => {
            let bytes = write_reply(alloc, &inputs.kinds, &reply)?;
            Ok(bytes)
        }
        Err(ServeFault::NoMemory) => Err(Stop::NoMemory),
        Err(ServeFault::NoLink) => Err(Stop::LinkFault),
    }
}

// The first of the updates is served; without one, one that says nothing.
fn serve_one<B: Switchboard>(
    alloc: Global,
    address: &str,
    turns: u64,
    updates: &[Update],
    board: &mut B,
) -> Result<Update, ServeFault>
    requires { Each IsValidUpdate (map update_value updates.now) }
    ensures served { ServesUpdateOn turns (the_update (map update_value updates.now))
        (board_of (B.told board.old) (B.faults board.old) (B.send_faults board.old))
        (board_of (B.told board.new) (B.faults board.new) (B.send_faults board.new)) result }
    ensures valid { IfOk result (λ reply. IsValidUpdate (update_value reply)) }
    ensures linked { B.is_calm board.old → HasEvents turns (B.told board.old)
        → IsLinked result × (B.faults board.new ≡ B.faults board.old) }
{
    match updates {
        [update, ..] => serve_update(alloc, update, board, address, turns),
        _ => serve_update(alloc, &nothing(alloc), board, address, turns),
    }
}
