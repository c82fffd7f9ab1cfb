//! The own state of a peer: told, set, and set again.

ghost use Rattle.std.specs.Prelude.{◌≡◌, ◌<◌, ◌∷◌, [], suc, true, false, is_some, IfOk, IfErr, IfSome, OnOk, OnErr};
ghost use Rattle.std.specs.Option.{option_copied};
ghost use Rattle.yd_words.specs.Each.{Each};
ghost use Rattle.yd_ids.specs.Id.{IsClient};
ghost use Rattle.yd_sync.specs.Entry.{IsEntry, IsState};
ghost use Rattle.yd_sync.specs.Message.{aware};
ghost use Rattle.yd_sync.specs.MessageReading.{message_reading};
ghost use Rattle.yd_sync.specs.Table.{is_due, standing_in};
ghost use Rattle.yd_aware.specs.AwareTable.{is_clock_full};
ghost use Rattle.yd_hub.specs.Peer.{own_state, peer_after, stated, tick};
ghost use Rattle.yd_machines.specs.declared.fault.PeerFault.TheVariants.{NoMemory as NoRoom};
ghost use Rattle.yd_machines.specs.PeerStep.{IsAnswer, RefusesEvent, peer_state, replica_of};
ghost use Rattle.yd_machines.specs.Sent.{AreSendable, sent_in};
ghost use Rattle.yd_machines.specs.Telling.{next_entry};

use crate::fault::{NoMemory, PeerFault};
use crate::list::MessageList;
use crate::peer::Peer;
use std::alloc::Global;
use yd_any::Text;
use yd_aware::{AwareFault, Awareness};
use yd_ids::Client;
use yd_sync::{AwareEntry, AwareList, Message};

/// The own entry, where the own client has a state.
pub(crate) fn own_state(alloc: Global, table: &Awareness) -> Result<AwareList, NoMemory>
    ensures told { IfOk result (λ es. es ≡ own_state table.now.own table.now.rows) }
    ensures valid { IfOk result (Each IsEntry) }
{
    let Some(own) = table.own() else {
        return Ok(AwareList::new(alloc));
    };
    if !has_state(table, own) {
        return Ok(AwareList::new(alloc));
    }
    let told = table.own_entry()?;
    Ok(told)
}

/// The client has a state.
fn has_state(table: &Awareness, client: Client) -> bool
    ensures { result ≡ is_some (standing_in table.now.rows client.0).state }
{
    match table.get(client).1 {
        None => false,
        Some(_) => true,
    }
}

/// The message that a client tells with the next clock.
fn next_told(
    alloc: Global,
    own: Client,
    clock: u64,
    state: Option<&str>,
) -> Result<MessageList, NoMemory>
    requires client { IsClient own }
    requires clock { suc clock < 9007199254740992 }
    requires state { IfSome (option_copied state) IsState }
    ensures sent { IfOk result (λ sent. sent_in sent
        ≡ aware (next_entry own clock (option_copied state.entry) ∷ []) ∷ []) }
    ensures sendable { IfOk result AreSendable }
{
    let state = copy_of(alloc, state)?;
    let mut entries = AwareList::new(alloc);
    entries.push(AwareEntry {
        client: own,
        clock: clock + 1,
        state,
    })?;
    let sent = MessageList::only(alloc, Message::Aware(entries))?;
    Ok(sent)
}

/// A state in memory of its own.
fn copy_of(alloc: Global, state: Option<&str>) -> Result<Option<Text>, NoMemory>
    ensures { IfOk result (λ copy. copy ≡ option_copied state.entry) }
{
    match state {
        None => Ok(None),
        Some(text) => Ok(Some(Text::copy_of(alloc, text)?)),
    }
}

/// A state, lent.
fn lent(state: &Option<Text>) -> Option<&str>
    ensures { option_copied result ≡ state.now }
{
    match state {
        None => None,
        Some(text) => Some(text.as_str()),
    }
}

impl Peer {
    /// Sets the own state, where there is an own client, and tells it.
    pub(crate) fn set_state(
        &mut self,
        state: &Option<Text>,
        now: u64,
    ) -> Result<MessageList, PeerFault>
        requires { IfSome state.now IsState }
        ensures after { OnOk result (peer_state self.new
            ≡ peer_after message_reading (peer_state self.old) (stated state.now now)) }
        ensures answer { IfOk result (λ sent. IsAnswer (replica_of self.old) (peer_state self.old)
            (stated state.now now) (sent_in sent)) }
        ensures sendable { IfOk result AreSendable }
        ensures refused { IfErr result (RefusesEvent (peer_state self.old) (stated state.now now)) }
        ensures unchanged { OnErr result (peer_state self.new ≡ peer_state self.old) }
    {
        let Some(own) = self.table.own() else {
            return Ok(MessageList::none(self.alloc));
        };
        if self.table.is_full() {
            return Err(PeerFault::ClockFull);
        }
        let clock = self.table.get(own).0;
        let sent = next_told(self.alloc, own, clock, lent(state))?;
        let state = copy_of(self.alloc, lent(state))?;
        match self.table.set_local(state, now) {
            Ok(()) => Ok(sent),
            Err(AwareFault::NoMemory) => Err(PeerFault::NoMemory),
            Err(AwareFault::ClockFull) => Err(PeerFault::ClockFull),
        }
    }

    /// Ends old states, and sets the own one again where it is due, and tells it.
    pub(crate) fn tick(&mut self, now: u64) -> Result<MessageList, PeerFault>
        ensures after { OnOk result (peer_state self.new
            ≡ peer_after message_reading (peer_state self.old) (tick now)) }
        ensures answer { IfOk result (λ sent. IsAnswer (replica_of self.old) (peer_state self.old)
            (tick now) (sent_in sent)) }
        ensures sendable { IfOk result AreSendable }
        ensures refused { IfErr result (RefusesEvent (peer_state self.old) (tick now)) }
        ensures unchanged { OnErr result (peer_state self.new ≡ peer_state self.old) }
    {
        if !self.table.is_due(now) {
            self.table.take_old(now)?;
            return Ok(MessageList::none(self.alloc));
        }
        if self.table.is_full() {
            return Err(PeerFault::ClockFull);
        }
        self.renew(now)
    }

    /// Ends old states, sets the own one again, and tells it.
    fn renew(&mut self, now: u64) -> Result<MessageList, PeerFault>
        requires due { is_due self.old.table.own now self.old.table.rows ≡ true }
        requires room { is_clock_full self.old.table.own self.old.table.rows ≡ false }
        ensures after { OnOk result (peer_state self.new
            ≡ peer_after message_reading (peer_state self.old) (tick now)) }
        ensures answer { IfOk result (λ sent. IsAnswer (replica_of self.old) (peer_state self.old)
            (tick now) (sent_in sent)) }
        ensures sendable { IfOk result AreSendable }
        ensures only_memory { IfErr result (λ fault. fault ≡ NoRoom) }
        ensures unchanged { OnErr result (peer_state self.new ≡ peer_state self.old) }
    {
        let Some(own) = self.table.own() else {
            return Err(PeerFault::NoMemory);
        };
        let (clock, state) = self.table.get(own);
        let sent = next_told(self.alloc, own, clock, state)?;
        self.table.take_old(now)?;
        match self.table.renew(now) {
            Ok(()) => Ok(sent),
            Err(_) => Err(PeerFault::NoMemory),
        }
    }
}
