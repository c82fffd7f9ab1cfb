//! Messages that are to be sent, in order.

ghost use Rattle.std.specs.Prelude.{◌≡◌, ◌∷◌, ◌++◌, [], IfOk, OnOk};
ghost use Rattle.yd_words.specs.Each.{Each};
ghost use Rattle.yd_sync.specs.Entry.{IsEntry};
ghost use Rattle.yd_sync.specs.Message.{IsValidMessage, message_value};
ghost use Rattle.yd_hub.specs.Peer.{message_of};
ghost use Rattle.yd_machines.specs.Sent.{AreSendable, messages_in, sent_in, values_of};

use crate::fault::NoMemory;
use std::alloc::Global;
use yd_sync::{AwareList, Message};

/// Messages that are to be sent, in order. Contracts see what they stand for (`sent_in`).
#[derive(Drop)]
pub struct MessageList {
    messages: Vec<Message>,
}

impl MessageList {
    /// No message.
    pub(crate) fn none(alloc: Global) -> MessageList
        ensures empty { sent_in result ≡ [] }
        ensures sendable { AreSendable result }
    {
        MessageList {
            messages: Vec::new(alloc),
        }
    }

    /// This message alone.
    pub(crate) fn only(alloc: Global, message: Message) -> Result<MessageList, NoMemory>
        requires { IsValidMessage (message_value message) }
        ensures sent { IfOk result (λ list. sent_in list ≡ message_value message ∷ []) }
        ensures sendable { IfOk result AreSendable }
    {
        let mut messages = Vec::new(alloc);
        push_message(&mut messages, message)?;
        Ok(MessageList { messages })
    }

    /// With a message of entries behind, if there is an entry.
    pub(crate) fn push_entries(&mut self, entries: AwareList) -> Result<(), NoMemory>
        requires sendable { AreSendable self.old }
        requires valid { Each IsEntry entries }
        ensures pushed { OnOk result (sent_in self.new ≡ sent_in self.old ++ message_of entries) }
        ensures sendable { AreSendable self.new }
    {
        push_entries(&mut self.messages, entries)
    }

    /// The messages as they are lent.
    pub fn as_slice(&self) -> &[Message]
        ensures { result.now ≡ messages_in self.now }
    {
        self.messages.as_slice()
    }
}

fn push_message(messages: &mut Vec<Message>, message: Message) -> Result<(), NoMemory>
    requires valid { IsValidMessage (message_value message) }
    requires sendable { Each IsValidMessage (values_of messages.old.items) }
    ensures pushed { OnOk result (values_of messages.new.items
        ≡ values_of messages.old.items ++ message_value message ∷ []) }
    ensures sendable { Each IsValidMessage (values_of messages.new.items) }
{
    messages.reserve(1)?;
    messages.push_reserved(message);
    Ok(())
}

fn push_entries(messages: &mut Vec<Message>, entries: AwareList) -> Result<(), NoMemory>
    requires valid { Each IsEntry entries }
    requires sendable { Each IsValidMessage (values_of messages.old.items) }
    ensures pushed { OnOk result (values_of messages.new.items
        ≡ values_of messages.old.items ++ message_of entries) }
    ensures sendable { Each IsValidMessage (values_of messages.new.items) }
{
    if entries.as_slice().is_empty() {
        return Ok(());
    }
    push_message(messages, Message::Aware(entries))?;
    Ok(())
}
