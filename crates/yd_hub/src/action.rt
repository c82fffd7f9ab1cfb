//! What a hub orders.

ghost use Rattle.std.specs.Prelude.{◌≡◌, ◌<◌, ◌++◌, [], OnOk, OnErr, vec_len, vec_capacity};
ghost use Rattle.yd_words.specs.Each.{Each};
ghost use Rattle.yd_sync.specs.Entry.{IsEntry};
ghost use Rattle.yd_hub.specs.Actions.{entries_to};
ghost use Rattle.yd_hub.specs.Orders.{AreSendable, HasRoom, IsSendable, actions_in, ordered, orders_in, orders_of};

use crate::fault::NoMemory;
use crate::sessions::Sessions;
use std::alloc::Global;
use yd_sync::{AwareList, Message, MessageFault};
use yd_world::Session;

/// Why a hub closes a session.
#[derive(Clone, Copy, Debug, PartialEq, Eq)]
pub enum CloseCause {
    /// It sent bytes that are no message.
    Bad(MessageFault),
    /// It came where 1,024 sessions are open.
    TooManySessions,
}

/// What is to be done.
#[derive(Drop)]
pub enum Action {
    /// A message goes to each of these sessions, in their order. It is there once for all of them.
    Send {
        /// Who gets it.
        to: Sessions,
        /// What they get.
        message: Message,
    },
    /// A session is closed.
    Close {
        /// Which one.
        to: Session,
        /// Why.
        cause: CloseCause,
    },
}

/// What is to be done, in order. Contracts see a send for each session (`ordered`).
#[derive(Drop)]
pub struct ActionList {
    pub(crate) actions: Vec<Action>,
}

impl ActionList {
    /// Nothing is to be done. It takes no memory.
    pub fn none(alloc: Global) -> ActionList
        ensures empty { ordered result ≡ [] }
        ensures sendable { AreSendable result }
    {
        ActionList {
            actions: Vec::new(alloc),
        }
    }

    /// Takes room for one action more.
    pub fn reserve(&mut self) -> Result<(), NoMemory>
        requires sendable { AreSendable self.old }
        ensures room { OnOk result (HasRoom self.new) }
        ensures unchanged { ordered self.new ≡ ordered self.old }
        ensures sendable { AreSendable self.new }
    {
        self.actions.reserve(1)?;
        Ok(())
    }

    /// Orders one action more. One that finds no memory is dropped.
    pub fn push(&mut self, action: Action) -> Result<(), NoMemory>
        requires sendable { AreSendable self.old }
        requires valid { IsSendable action }
        ensures pushed { OnOk result (ordered self.new ≡ ordered self.old ++ orders_in action) }
        ensures sendable { AreSendable self.new }
        ensures unchanged { OnErr result (actions_in self.new ≡ actions_in self.old) }
    {
        self.actions.reserve(1)?;
        push_action(&mut self.actions, action);
        Ok(())
    }

    /// Orders one action more, for which room was taken.
    pub fn push_reserved(&mut self, action: Action)
        requires room { HasRoom self.old }
        requires sendable { AreSendable self.old }
        requires valid { IsSendable action }
        ensures pushed { ordered self.new ≡ ordered self.old ++ orders_in action }
        ensures sendable { AreSendable self.new }
    {
        push_action(&mut self.actions, action);
    }

    /// Orders that entries go to these sessions, if there is an entry. Room was taken for one action.
    pub fn push_entries(&mut self, to: Sessions, entries: AwareList)
        requires room { HasRoom self.old }
        requires sendable { AreSendable self.old }
        requires valid { Each IsEntry entries }
        ensures pushed { ordered self.new ≡ ordered self.old ++ entries_to entries to }
        ensures sendable { AreSendable self.new }
    {
        order_entries(&mut self.actions, to, entries);
    }

    /// The actions as they are lent.
    pub fn as_slice(&self) -> &[Action]
        ensures { result.now ≡ actions_in self.now }
    {
        self.actions.as_slice()
    }
}

/// Orders one action more.
fn push_action(actions: &mut Vec<Action>, action: Action)
    requires room { vec_len actions.old < vec_capacity actions.old }
    requires sendable { Each IsSendable actions.old.items }
    requires valid { IsSendable action }
    ensures pushed { orders_of actions.new.items
        ≡ orders_of actions.old.items ++ orders_in action }
    ensures sendable { Each IsSendable actions.new.items }
{
    actions.push_reserved(action);
}

/// Orders that entries go to these sessions, if there is an entry.
fn order_entries(actions: &mut Vec<Action>, to: Sessions, entries: AwareList)
    requires room { vec_len actions.old < vec_capacity actions.old }
    requires valid { Each IsEntry entries }
    requires sendable { Each IsSendable actions.old.items }
    ensures sends { orders_of actions.new.items
        ≡ orders_of actions.old.items ++ entries_to entries to }
    ensures sendable { Each IsSendable actions.new.items }
{
    if entries.as_slice().is_empty() {
        return;
    }
    let message = Message::Aware(entries);
    actions.push_reserved(Action::Send { to, message });
}
