//! An edit in the replica that a client lends.

ghost use Rattle.std.specs.Prelude.{IfOk};
ghost use Rattle.yd_machines.specs.PeerStep.{IsProperEvent};

use crate::sending::sent_at;
use std::alloc::Global;
use std::test::Fail;
use yd_doc::Replica;
use yd_ids::{Client, IdSet, Span};
use yd_machines::{Peer, PeerEvent};
use yd_v1::read_v1;

/// "abc" of client 1 in the root `t`.
const ABC: [u8; 13] = [1, 1, 1, 0, 4, 1, 1, 0x74, 3, 0x61, 0x62, 0x63, 0];
/// A change that deletes "a".
const A_GONE: [u8; 9] = [0, 2, 6, 0, 1, 1, 1, 0, 1];
/// "a".
const A: Span = Span {
    client: Client(1),
    clock: 0,
    len: 1,
};

/// Client 2, which has "abc".
fn peer_with_abc(alloc: Global) -> Result<Peer, Fail> {
    let mut replica = Replica::new(alloc, Client(2))?;
    let update = read_v1(alloc, &ABC)?;
    replica.apply(&update)?;
    let peer = Peer::new(alloc, replica, None)?;
    Ok(peer)
}

/// "a" is deleted in the replica that is lent.
fn deletion(alloc: Global, peer: &mut Peer) -> Result<PeerEvent, Fail>
    ensures { IfOk result IsProperEvent }
{
    let mut ids = IdSet::new(alloc);
    ids.insert(A)?;
    let update = peer.replica_mut().remove(&ids)?;
    Ok(PeerEvent::Edited(update))
}

fn told(alloc: Global, peer: &mut Peer) -> Result<Vec<u8>, Fail> {
    let event = deletion(alloc, peer)?;
    sent_at(alloc, peer, &event)
}

#[test]
fn an_edit_of_the_lent_replica_goes_out_as_a_change(rt: HostRuntime) -> Result<(), Fail> {
    let mut peer = peer_with_abc(rt.alloc())?;
    let told = told(rt.alloc(), &mut peer)?;
    assert_eq!(rt; told.as_slice(), A_GONE.as_slice());
    Ok(())
}
