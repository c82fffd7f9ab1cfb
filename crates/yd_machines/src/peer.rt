//! The client's core: one step for each event.

ghost use Rattle.std.specs.Prelude.{◌≡◌, IfOk, IfErr, IfSome, OnErr};
ghost use Rattle.std.specs.Borrow.{sem};
ghost use Rattle.yd_ids.specs.Id.{IsClient};

use crate::answering::vector_of;
use crate::event::PeerEvent;
use crate::fault::{NoMemory, PeerFault};
use crate::hearing::message_in;
use crate::list::MessageList;
use crate::stating::own_state;
use std::alloc::Global;
use yd_aware::Awareness;
use yd_doc::Replica;
use yd_ids::Client;
use yd_ops::Update;
use yd_sync::Message;

/// The client's core (y-websocket's client): a replica, who is there, and how far the exchange with
/// a server came. Contracts see it as `peer_state`, and its replica as `replica_of`.
#[derive(Drop)]
pub struct Peer {
    pub(crate) alloc: Global,
    pub(crate) replica: Replica,
    pub(crate) table: Awareness,
    pub(crate) taken_step2: bool,
    pub(crate) answered_step1: bool,
}

impl Peer {
    ghost use Rattle.std.specs.Prelude.{Ok};
    ghost use Rattle.yd_ops.specs.Valid.{IsValidUpdate};
    ghost use Rattle.yd_ops.specs.View.{update_value};
    ghost use Rattle.yd_sync.specs.MessageReading.{message_reading};
    ghost use Rattle.yd_hub.specs.Peer.{edited, peer_after, received};
    ghost use Rattle.yd_machines.specs.Lending.{LendsReplica};
    ghost use Rattle.yd_machines.specs.PeerStep.{AsksFirst, IsAnswer, IsProperEvent, RefusesEvent, TakesEvent, event_value, first_peer, peer_state, replica_of};
    ghost use Rattle.yd_machines.specs.Sent.{AreSendable, sent_in};

    /// A peer with this replica and this own client, if any, that knows of nobody.
    pub fn new(alloc: Global, replica: Replica, own: Option<Client>) -> Result<Peer, NoMemory>
        requires { IfSome own IsClient }
        ensures state { IfOk result (λ peer. peer_state peer ≡ first_peer replica own) }
        ensures replica { IfOk result (λ peer. replica_of peer ≡ replica) }
    {
        let table = Awareness::new(alloc, own)?;
        Ok(Peer {
            alloc,
            replica,
            table,
            taken_step2: false,
            answered_step1: false,
        })
    }

    /// What it received, and its document.
    pub fn replica(&self) -> &Replica
        ensures { result.now ≡ replica_of self.now }
    {
        &self.replica
    }

    /// Its replica, to be edited. What is made there goes out once it is handed in as
    /// `PeerEvent::Edited`. The peer ends with the replica as the caller leaves it, and else as it
    /// was.
    pub fn replica_mut(&mut self) -> &mut Replica
        ensures* writes_back { sem 𝓛 (LendsReplica self.entry result) }
        ensures replica { result.now ≡ replica_of self.old }
    {
        &mut self.replica
    }

    /// A step 2 was applied.
    pub fn taken_step2(&self) -> bool
        ensures { result ≡ (peer_state self.now).taken_step2 }
    {
        self.taken_step2
    }

    /// A step 1 was answered.
    pub fn answered_step1(&self) -> bool
        ensures { result ≡ (peer_state self.now).answered_step1 }
    {
        self.answered_step1
    }

    /// Takes one event, and answers the messages that are to be sent, in order (y-websocket, its
    /// client; the refusals are own). Bytes that are no message are refused, and so is what would
    /// set the own state above clock 2^53-1. After a refusal, want of memory included, the peer is
    /// as it was, but for whether its replica is behind. A step takes the time of the message, of
    /// the update that is applied and of what is sent; a tick goes over all clients once.
    pub fn step(&mut self, event: &PeerEvent) -> Result<MessageList, PeerFault>
        requires { IsProperEvent event.now }
        ensures taken { IfOk result (λ sent. TakesEvent (replica_of self.old) (peer_state self.old)
            (peer_state self.new) (event_value event.now) (sent_in sent)) }
        ensures sendable { IfOk result AreSendable }
        ensures refused { IfErr result (λ fault.
            RefusesEvent (peer_state self.old) (event_value event.now) fault) }
        ensures unchanged { OnErr result (peer_state self.new ≡ peer_state self.old) }
    {
        let _vector = vector_of(&self.replica);
        match event {
            PeerEvent::Opened(_) => {
                let sent = self.ask()?;
                Ok(sent)
            }
            PeerEvent::Received(bytes, now) => self.hear(bytes.as_slice(), *now),
            PeerEvent::Tick(now) => self.tick(*now),
            PeerEvent::Edited(update) => {
                let sent = self.tell(update)?;
                Ok(sent)
            }
            PeerEvent::State(state, now) => self.set_state(state, *now),
        }
    }

    /// Asks for what is lacking, and tells the own state.
    fn ask(&self) -> Result<MessageList, NoMemory>
        ensures asks { IfOk result (λ sent.
            AsksFirst (replica_of self.now) (peer_state self.now) (sent_in sent)) }
        ensures sendable { IfOk result AreSendable }
    {
        let vector = vector_of(&self.replica).copy()?;
        let entries = own_state(self.alloc, &self.table)?;
        let mut sent = MessageList::only(self.alloc, Message::Step1(vector))?;
        sent.push_entries(entries)?;
        Ok(sent)
    }

    /// Takes the message that the bytes are.
    fn hear(&mut self, bytes: &[u8], now: u64) -> Result<MessageList, PeerFault>
        ensures after { IfOk result (λ sent. peer_state self.new
            ≡ peer_after message_reading (peer_state self.old) (received bytes.now now)) }
        ensures answer { IfOk result (λ sent. IsAnswer (replica_of self.old) (peer_state self.old)
            (received bytes.now now) (sent_in sent)) }
        ensures sendable { IfOk result AreSendable }
        ensures refused { IfErr result
            (RefusesEvent (peer_state self.old) (received bytes.now now)) }
        ensures unchanged { OnErr result (peer_state self.new ≡ peer_state self.old) }
    {
        let message = message_in(self.alloc, bytes)?;
        let sent = self.take(message, now)?;
        Ok(sent)
    }

    /// Applies an edit, and tells it.
    fn tell(&mut self, update: &Update) -> Result<MessageList, NoMemory>
        requires { IsValidUpdate (update_value update.now) }
        ensures after { IfOk result (λ sent. peer_state self.new
            ≡ peer_after message_reading (peer_state self.old) (edited (update_value update.now))) }
        ensures answer { IfOk result (λ sent. IsAnswer (replica_of self.old) (peer_state self.old)
            (edited (update_value update.now)) (sent_in sent)) }
        ensures sendable { IfOk result AreSendable }
        ensures unchanged { OnErr result (peer_state self.new ≡ peer_state self.old) }
    {
        let copy = update.copy()?;
        let sent = MessageList::only(self.alloc, Message::Change(copy))?;
        self.replica.apply(update)?;
        Ok(sent)
    }
}
