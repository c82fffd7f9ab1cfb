//! An own state: told where it is set, and once more where it is due.

ghost use Rattle.std.specs.Prelude.{IfOk};
ghost use Rattle.yd_machines.specs.PeerStep.{IsProperEvent};

use crate::sending::sent_at;
use std::alloc::Global;
use std::test::Fail;
use yd_any::Text;
use yd_doc::Replica;
use yd_ids::Client;
use yd_machines::{Peer, PeerEvent};

/// Client 1 has the state `{"a":1}`, at clock 1.
const FIRST: [u8; 13] = [1, 11, 1, 1, 1, 7, 0x7b, 0x22, 0x61, 0x22, 0x3a, 0x31, 0x7d];
/// The same at clock 2.
const SECOND: [u8; 13] = [1, 11, 1, 1, 2, 7, 0x7b, 0x22, 0x61, 0x22, 0x3a, 0x31, 0x7d];

/// What a client sends where its state is set, a moment before it is due, and when it is.
#[derive(Drop)]
struct Told {
    set: Vec<u8>,
    before: Vec<u8>,
    due: Vec<u8>,
}

/// Client 1, which has nothing.
fn peer_of_one(alloc: Global) -> Result<Peer, Fail> {
    let replica = Replica::new(alloc, Client(1))?;
    let peer = Peer::new(alloc, replica, Some(Client(1)))?;
    Ok(peer)
}

/// The state `{"a":1}` is set at moment 0.
fn setting(alloc: Global) -> Result<PeerEvent, Fail>
    ensures { IfOk result IsProperEvent }
{
    let state = Text::copy_of(alloc, "{\"a\":1}")?;
    Ok(PeerEvent::State(Some(state), 0))
}

/// What the client sends then, and at two moments later.
fn told_by(alloc: Global, peer: &mut Peer) -> Result<Told, Fail> {
    let event = setting(alloc)?;
    let set = sent_at(alloc, peer, &event)?;
    let before = sent_at(alloc, peer, &PeerEvent::Tick(14_999))?;
    let due = sent_at(alloc, peer, &PeerEvent::Tick(15_000))?;
    Ok(Told { set, before, due })
}

fn all_told(alloc: Global) -> Result<Told, Fail> {
    let mut peer = peer_of_one(alloc)?;
    told_by(alloc, &mut peer)
}

#[test]
fn an_own_state_is_told_again_after_15_seconds(rt: HostRuntime) -> Result<(), Fail> {
    let told = all_told(rt.alloc())?;
    assert_eq!(rt; told.set.as_slice(), FIRST.as_slice());
    assert_eq!(rt; told.before.as_slice(), [].as_slice());
    assert_eq!(rt; told.due.as_slice(), SECOND.as_slice());
    Ok(())
}
