//! A client's loop: one event after another, until it is in step with a server.

ghost use Rattle.std.specs.Prelude.{◌≡◌, ◌≤◌, ◌<◌, suc};
ghost use Rattle.yd_words.specs.Each.{Each};
ghost use Rattle.yd_world.specs.Traffic.{HasEvent};
ghost use Rattle.yd_sync.specs.Message.{IsValidMessage};
ghost use Rattle.yd_hub.specs.Syncing.{is_in_step};
ghost use Rattle.yd_machines.specs.PeerStep.{IsProperEvent, event_value, peer_state};
ghost use Rattle.yd_machines.specs.Sent.{values_of};
ghost use Rattle.yd_serving.specs.Board.{HasEvents, board_of};
ghost use Rattle.yd_serving.specs.Exchange.{after_refusal, ExchangesOn, SaysOn, TakesTurnOn};
ghost use Rattle.yd_serving.specs.Syncing.{IsSyncLinked, SyncsOn};

use crate::fault::{NoMemory, SyncFault};
use crate::hearing::{Heard, count_heard, heard_of};
use std::alloc::Global;
use yd_machines::{Peer, PeerEvent, PeerFault, is_answering, vector_of};
use yd_sync::{Message, write_message};
use yd_world::{Outage, Session, Switchboard, Way};

/// Brings a peer in step with a server at an address (own). Each turn takes one event of the board;
/// those of session 0 are the peer's. The loop ends once the peer has taken a step 2 and answered a
/// step 1, where its session ended or a send failed, at a message that is none, and after so many
/// turns. It ends early where the board does not start or has no event, and where memory ends.
pub fn sync<B: Switchboard>(
    alloc: Global,
    peer: &mut Peer,
    board: &mut B,
    address: &str,
    turns: u64,
) -> Result<(), SyncFault>
    ensures synced { SyncsOn turns (peer_state peer.old) (peer_state peer.new)
        (board_of (B.told board.old) (B.faults board.old) (B.send_faults board.old))
        (board_of (B.told board.new) (B.faults board.new) (B.send_faults board.new)) result }
    ensures calm { B.is_calm board.old → B.is_calm board.new }
    ensures linked { B.is_calm board.old → HasEvents turns (B.told board.old)
        → IsSyncLinked result × (B.faults board.new ≡ B.faults board.old) }
{
    board.start(address, Way::Call)?;
    sync_turns(alloc, peer, board, turns)
}

// So many turns at most over a board that has started.
fn sync_turns<B: Switchboard>(
    alloc: Global,
    peer: &mut Peer,
    board: &mut B,
    turns: u64,
) -> Result<(), SyncFault>
    ensures synced { SyncsOn turns (peer_state peer.old) (peer_state peer.new)
        (board_of (B.told board.old) (B.faults board.old) (B.send_faults board.old))
        (board_of (B.told board.new) (B.faults board.new) (B.send_faults board.new)) result }
    ensures calm { B.is_calm board.old → B.is_calm board.new }
    ensures linked { B.is_calm board.old → HasEvents turns (B.told board.old)
        → IsSyncLinked result × (B.faults board.new ≡ B.faults board.old) }
{
    let mut heard = 0;
    for _ in 0..turns {
        if is_in_step(peer) {
            return Ok(());
        }
        let ended = sync_turn(alloc, peer, board, &mut heard)?;
        if ended {
            return Ok(());
        }
    }
    Ok(())
}

// A step 2 was applied and a step 1 answered.
fn is_in_step(peer: &Peer) -> bool
    ensures { result ≡ is_in_step (peer_state peer.now) }
{
    peer.taken_step2() && peer.answered_step1()
}

// One turn; the answer is whether the loop ends with it.
fn sync_turn<B: Switchboard>(
    alloc: Global,
    peer: &mut Peer,
    board: &mut B,
    heard: &mut u64,
) -> Result<bool, SyncFault>
    requires { suc heard.old < 18446744073709551616 }
    ensures taken { TakesTurnOn heard.old heard.new (peer_state peer.old) (peer_state peer.new)
        (board_of (B.told board.old) (B.faults board.old) (B.send_faults board.old))
        (board_of (B.told board.new) (B.faults board.new) (B.send_faults board.new)) result }
    ensures few { heard.new ≤ suc heard.old }
    ensures calm { B.is_calm board.old → B.is_calm board.new }
    ensures linked { B.is_calm board.old → HasEvent (B.told board.old)
        → IsSyncLinked result × (B.faults board.new ≡ B.faults board.old) }
{
    let replica = peer.replica();
    is_answering(replica);
    let _vector = vector_of(replica);
    let event = board.next()?;
    match heard_of(event) {
        Heard::Nothing => Ok(false),
        Heard::Close => Ok(true),
        Heard::Event(event) => {
            *heard = count_heard(*heard, &event);
            exchange(alloc, peer, board, &event, *heard)
        }
    }
}

// The peer takes an event, and what answers it is sent; the answer is whether a send failed.
fn exchange<B: Switchboard>(
    alloc: Global,
    peer: &mut Peer,
    board: &mut B,
    event: &PeerEvent,
    heard: u64,
) -> Result<bool, SyncFault>
    requires { IsProperEvent event.now }
    ensures exchanged { ExchangesOn heard (event_value event.now)
        (peer_state peer.old) (peer_state peer.new)
        (board_of (B.told board.old) (B.faults board.old) (B.send_faults board.old))
        (board_of (B.told board.new) (B.faults board.new) (B.send_faults board.new)) result }
    ensures linked { IsSyncLinked result }
    ensures calm { B.is_calm board.old → B.is_calm board.new }
    ensures faults { B.faults board.new ≡ B.faults board.old }
{
    let replica = peer.replica();
    is_answering(replica);
    let _vector = vector_of(replica);
    match peer.step(event) {
        Ok(messages) => {
            let failed = say(alloc, board, messages.as_slice())?;
            Ok(failed)
        }
        Err(fault) => after_refusal(heard, fault),
    }
}

// Bytes that are no message end the loop; an own state that cannot be set is left as it is.
fn after_refusal(heard: u64, fault: PeerFault) -> Result<bool, SyncFault>
    ensures { result ≡ after_refusal heard fault }
{
    match fault {
        PeerFault::NoMemory => Err(SyncFault::NoMemory),
        PeerFault::Bad(fault) => Err(SyncFault::Refused(heard, fault)),
        PeerFault::ClockFull => Ok(false),
    }
}

// Messages to session 0, up to one whose send fails; the answer is whether one did.
fn say<B: Switchboard>(alloc: Global, board: &mut B, messages: &[Message]) -> Result<bool, NoMemory>
    requires { Each IsValidMessage (values_of messages.now) }
    ensures said { SaysOn (values_of messages.now)
        (board_of (B.told board.old) (B.faults board.old) (B.send_faults board.old))
        (board_of (B.told board.new) (B.faults board.new) (B.send_faults board.new)) result }
    ensures calm { B.is_calm board.old → B.is_calm board.new }
    ensures faults { B.faults board.new ≡ B.faults board.old }
{
    for message in messages {
        let bytes = write_message(alloc, message)?;
        match board.send(Session(0), &bytes) {
            Ok(()) => {}
            Err(Outage::NoMemory) => return Err(NoMemory),
            Err(Outage::Failed) => return Ok(true),
        }
    }
    Ok(false)
}
