//! An update that is served, and one that is brought in step with a server's.

ghost use Rattle.std.specs.Prelude.{◌≡◌, ◌∷◌, [], IfOk, IfSome};
ghost use Rattle.yd_ops.specs.Valid.{IsValidUpdate};
ghost use Rattle.yd_ops.specs.View.{update_value};
ghost use Rattle.yd_ops.specs.Received.{received_set};
ghost use Rattle.yd_doc.specs.Kept.{received_of};
ghost use Rattle.yd_machines.specs.HubStep.{hub_state};
ghost use Rattle.yd_machines.specs.PeerStep.{peer_state};
ghost use Rattle.yd_serving.specs.Board.{HasEvents, board_of};
ghost use Rattle.yd_serving.specs.Serving.{IsLinked};
ghost use Rattle.yd_serving.specs.Syncing.{IsSyncLinked};
ghost use Rattle.yd_serving.specs.Updates.{
  IsAllOf,
  ServesFromOn,
  ServesUpdateOn,
  SyncsFromOn,
  SyncsUpdateOn,
};

use crate::fault::{NoMemory, ServeFault, SyncFault};
use crate::serving::serve;
use crate::syncing::sync;
use std::alloc::Global;
use yd_doc::Replica;
use yd_ids::{Client, Vector};
use yd_machines::{Hub, Peer, is_answering};
use yd_ops::Update;
use yd_world::Switchboard;

/// Serves an update at an address for so many turns, and answers all that the server has at the end,
/// as one grouped update (own). It ends early as `serve` does.
pub fn serve_update<B: Switchboard>(
    alloc: Global,
    update: &Update,
    board: &mut B,
    address: &str,
    turns: u64,
) -> Result<Update, ServeFault>
    requires { IsValidUpdate (update_value update.now) }
    ensures served { ServesUpdateOn turns (update_value update.now)
        (board_of (B.told board.old) (B.faults board.old) (B.send_faults board.old))
        (board_of (B.told board.new) (B.faults board.new) (B.send_faults board.new)) result }
    ensures valid { IfOk result (λ reply. IsValidUpdate (update_value reply)) }
    ensures calm { B.is_calm board.old → B.is_calm board.new }
    ensures linked { B.is_calm board.old → HasEvents turns (B.told board.old)
        → IsLinked result × (B.faults board.new ≡ B.faults board.old) }
{
    let replica = replica_with(alloc, update)?;
    let mut hub = Hub::new(alloc, replica)?;
    serve_hub(alloc, &mut hub, board, address, turns)
}

/// Brings an update in step with a server at an address, in so many turns at most, and answers all
/// that the client has at the end, as one grouped update; none where no step 2 came (own). It ends
/// early as `sync` does.
pub fn sync_update<B: Switchboard>(
    alloc: Global,
    update: &Update,
    board: &mut B,
    address: &str,
    turns: u64,
) -> Result<Option<Update>, SyncFault>
    requires { IsValidUpdate (update_value update.now) }
    ensures synced { SyncsUpdateOn turns (update_value update.now)
        (board_of (B.told board.old) (B.faults board.old) (B.send_faults board.old))
        (board_of (B.told board.new) (B.faults board.new) (B.send_faults board.new)) result }
    ensures valid { IfOk result (λ found.
        IfSome found (λ reply. IsValidUpdate (update_value reply))) }
    ensures calm { B.is_calm board.old → B.is_calm board.new }
    ensures linked { B.is_calm board.old → HasEvents turns (B.told board.old)
        → IsSyncLinked result × (B.faults board.new ≡ B.faults board.old) }
{
    let replica = replica_with(alloc, update)?;
    let mut peer = Peer::new(alloc, replica, None)?;
    sync_peer(alloc, &mut peer, board, address, turns)
}

// Serves the hub, and answers all that it has at the end.
fn serve_hub<B: Switchboard>(
    alloc: Global,
    hub: &mut Hub,
    board: &mut B,
    address: &str,
    turns: u64,
) -> Result<Update, ServeFault>
    ensures served { ServesFromOn turns (hub_state hub.old)
        (board_of (B.told board.old) (B.faults board.old) (B.send_faults board.old))
        (board_of (B.told board.new) (B.faults board.new) (B.send_faults board.new)) result }
    ensures valid { IfOk result (λ reply. IsValidUpdate (update_value reply)) }
    ensures calm { B.is_calm board.old → B.is_calm board.new }
    ensures linked { B.is_calm board.old → HasEvents turns (B.told board.old)
        → IsLinked result × (B.faults board.new ≡ B.faults board.old) }
{
    serve(alloc, hub, board, address, turns)?;
    let reply = all_of(alloc, hub.replica())?;
    Ok(reply)
}

// Brings the peer in step, and answers all that it has at the end; none where no step 2 came.
fn sync_peer<B: Switchboard>(
    alloc: Global,
    peer: &mut Peer,
    board: &mut B,
    address: &str,
    turns: u64,
) -> Result<Option<Update>, SyncFault>
    ensures synced { SyncsFromOn turns (peer_state peer.old)
        (board_of (B.told board.old) (B.faults board.old) (B.send_faults board.old))
        (board_of (B.told board.new) (B.faults board.new) (B.send_faults board.new)) result }
    ensures valid { IfOk result (λ found.
        IfSome found (λ reply. IsValidUpdate (update_value reply))) }
    ensures calm { B.is_calm board.old → B.is_calm board.new }
    ensures linked { B.is_calm board.old → HasEvents turns (B.told board.old)
        → IsSyncLinked result × (B.faults board.new ≡ B.faults board.old) }
{
    sync(alloc, peer, board, address, turns)?;
    if !peer.taken_step2() {
        return Ok(None);
    }
    let reply = all_of(alloc, peer.replica())?;
    Ok(Some(reply))
}

// A replica that received an update. It makes no edits, so its client is any.
fn replica_with(alloc: Global, update: &Update) -> Result<Replica, NoMemory>
    requires { IsValidUpdate (update_value update.now) }
    ensures { IfOk result (λ replica.
        received_of replica ≡ received_set (update_value update.now ∷ [])) }
{
    let mut replica = Replica::new(alloc, Client(0))?;
    replica.apply(update)?;
    Ok(replica)
}

// All that a replica has: its reply to the empty vector.
fn all_of(alloc: Global, replica: &Replica) -> Result<Update, NoMemory>
    ensures all { IfOk result (λ reply. IsAllOf (received_of replica.now) (update_value reply)) }
    ensures valid { IfOk result (λ reply. IsValidUpdate (update_value reply)) }
{
    is_answering(replica);
    let reply = replica.reply(&Vector::new(alloc))?;
    Ok(reply)
}
