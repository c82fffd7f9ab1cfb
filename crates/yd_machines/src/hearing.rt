//! Messages that come to a peer.

ghost use Rattle.std.specs.Prelude.{◌≡◌, Ok, IfOk, IfErr, OnErr};
ghost use Rattle.yd_words.specs.Each.{Each};
ghost use Rattle.yd_ops.specs.Valid.{IsValidUpdate};
ghost use Rattle.yd_ops.specs.View.{update_value};
ghost use Rattle.yd_sync.specs.Entry.{IsEntry};
ghost use Rattle.yd_sync.specs.Message.{IsValidMessage, aware, change, message_value, query, step1, step2};
ghost use Rattle.yd_sync.specs.MessageReading.{message_reading};
ghost use Rattle.yd_machines.specs.PeerStep.{IsNoMessage, TakesMessage, fault_of, peer_state, replica_of};
ghost use Rattle.yd_machines.specs.Sent.{AreSendable, sent_in};

use crate::fault::{NoMemory, PeerFault};
use crate::list::MessageList;
use crate::peer::Peer;
use crate::reading::read;
use std::alloc::Global;
use yd_ids::Vector;
use yd_ops::Update;
use yd_sync::{AwareList, Message, MessageError};

/// The message that the bytes are, or why a peer refuses them.
pub(crate) fn message_in(alloc: Global, bytes: &[u8]) -> Result<Message, PeerFault>
    ensures read { IfOk result (λ message. message_reading bytes.now
        ≡ Ok (message_value message)) }
    ensures valid { IfOk result (λ message. IsValidMessage (message_value message)) }
    ensures refused { IfErr result (λ fault. IsNoMessage bytes.now fault) }
{
    match read(alloc, bytes) {
        Ok(message) => Ok(message),
        Err(error) => Err(fault_of(error)),
    }
}

/// Why a peer refuses bytes that could not be read.
fn fault_of(error: MessageError) -> PeerFault
    ensures { result ≡ fault_of error }
{
    match error {
        MessageError::NoMemory => PeerFault::NoMemory,
        MessageError::Fault(fault) => PeerFault::Bad(fault),
    }
}

impl Peer {
    /// Takes a message, and answers it where it asks for something.
    pub(crate) fn take(&mut self, message: Message, now: u64) -> Result<MessageList, NoMemory>
        requires { IsValidMessage (message_value message) }
        ensures taken { IfOk result (λ sent. TakesMessage (replica_of self.old)
            (peer_state self.old) (peer_state self.new) now (message_value message)
            (sent_in sent)) }
        ensures sendable { IfOk result AreSendable }
        ensures unchanged { OnErr result (peer_state self.new ≡ peer_state self.old) }
    {
        match message {
            Message::Step1(vector) => self.take_step1(&vector, now),
            Message::Step2(update) => self.take_step2(&update, now),
            Message::Change(update) => self.take_change(&update, now),
            Message::Aware(entries) => self.take_entries(&entries, now),
            Message::Auth(_) => Ok(MessageList::none(self.alloc)),
            Message::Query => self.tell_states(now),
        }
    }

    /// Answers a state vector with all that its asker lacks.
    fn take_step1(&mut self, vector: &Vector, now: u64) -> Result<MessageList, NoMemory>
        ensures taken { IfOk result (λ sent. TakesMessage (replica_of self.old)
            (peer_state self.old) (peer_state self.new) now (step1 vector.now) (sent_in sent)) }
        ensures sendable { IfOk result AreSendable }
        ensures unchanged { OnErr result (peer_state self.new ≡ peer_state self.old) }
    {
        let update = self.replica.reply(vector)?;
        let sent = MessageList::only(self.alloc, Message::Step2(update))?;
        self.answered_step1 = true;
        Ok(sent)
    }

    /// Applies an answer.
    fn take_step2(&mut self, update: &Update, now: u64) -> Result<MessageList, NoMemory>
        requires { IsValidUpdate (update_value update.now) }
        ensures taken { IfOk result (λ sent. TakesMessage (replica_of self.old)
            (peer_state self.old) (peer_state self.new) now (step2 (update_value update.now))
            (sent_in sent)) }
        ensures sendable { IfOk result AreSendable }
        ensures unchanged { OnErr result (peer_state self.new ≡ peer_state self.old) }
    {
        self.replica.apply(update)?;
        self.taken_step2 = true;
        Ok(MessageList::none(self.alloc))
    }

    /// Applies an edit of another.
    fn take_change(&mut self, update: &Update, now: u64) -> Result<MessageList, NoMemory>
        requires { IsValidUpdate (update_value update.now) }
        ensures taken { IfOk result (λ sent. TakesMessage (replica_of self.old)
            (peer_state self.old) (peer_state self.new) now (change (update_value update.now))
            (sent_in sent)) }
        ensures sendable { IfOk result AreSendable }
        ensures unchanged { OnErr result (peer_state self.new ≡ peer_state self.old) }
    {
        self.replica.apply(update)?;
        Ok(MessageList::none(self.alloc))
    }

    /// Takes entries.
    fn take_entries(&mut self, entries: &AwareList, now: u64) -> Result<MessageList, NoMemory>
        requires { Each IsEntry entries.now }
        ensures taken { IfOk result (λ sent. TakesMessage (replica_of self.old)
            (peer_state self.old) (peer_state self.new) now (aware entries.now) (sent_in sent)) }
        ensures sendable { IfOk result AreSendable }
        ensures unchanged { OnErr result (peer_state self.new ≡ peer_state self.old) }
    {
        self.table.apply(entries, now)?;
        Ok(MessageList::none(self.alloc))
    }

    /// Tells who is there.
    fn tell_states(&mut self, now: u64) -> Result<MessageList, NoMemory>
        ensures taken { IfOk result (λ sent. TakesMessage (replica_of self.old)
            (peer_state self.old) (peer_state self.new) now query (sent_in sent)) }
        ensures sendable { IfOk result AreSendable }
        ensures unchanged { peer_state self.new ≡ peer_state self.old }
    {
        let entries = self.table.encode()?;
        let sent = MessageList::only(self.alloc, Message::Aware(entries))?;
        Ok(sent)
    }
}
