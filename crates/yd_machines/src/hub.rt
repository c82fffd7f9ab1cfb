//! The server's core: one step for each event.

ghost use Rattle.std.specs.Prelude.{◌≡◌, ◌++◌, ◌∷◌, [], IfOk, OnOk, OnErr};
ghost use Rattle.yd_sync.specs.Message.{IsValidMessage, message_value};
ghost use Rattle.yd_hub.specs.Actions.{close, send};
ghost use Rattle.yd_hub.specs.Orders.{AreSendable, ordered};

use crate::answering::vector_of;
use crate::fault::NoMemory;
use crate::presence::Presence;
use crate::reading::read;
use std::alloc::Global;
use yd_doc::Replica;
use yd_hub::{Action, ActionList, CloseCause, Sessions};
use yd_sync::{Message, MessageError, MessageFault};
use yd_world::{Event, Session, What};

/// As many sessions may be open at once.
const MOST_SESSIONS: usize = 1024;

/// The server's core (y-websocket's server; the limit of sessions and the closes are own): a
/// replica, the open sessions, and who is there. Contracts see it as `hub_state`, and its replica
/// as `replica_of_hub`.
#[derive(Drop)]
pub struct Hub {
    pub(crate) alloc: Global,
    pub(crate) replica: Replica,
    pub(crate) sessions: Sessions,
    pub(crate) presence: Presence,
}

impl Hub {
    ghost use Rattle.yd_hub.specs.declared.action.CloseCause.TheVariants.{Bad};
    ghost use Rattle.yd_hub.specs.Hub.{actions_if_open, actions_of_closed, actions_of_idle, after_closed, after_idle, after_opened, closed_if_open};
    ghost use Rattle.yd_machines.specs.HubStep.{Hears, Opens, TakesHubEvent, Welcomes, first_hub, hub_state, replica_of_hub};

    /// A hub with this replica, of which no session is open, and which knows of nobody.
    pub fn new(alloc: Global, replica: Replica) -> Result<Hub, NoMemory>
        ensures state { IfOk result (λ hub. hub_state hub ≡ first_hub replica) }
        ensures replica { IfOk result (λ hub. replica_of_hub hub ≡ replica) }
    {
        let presence = Presence::new(alloc)?;
        Ok(Hub {
            alloc,
            replica,
            sessions: Sessions::new(alloc),
            presence,
        })
    }

    /// What it received, and its document.
    pub fn replica(&self) -> &Replica
        ensures { result.now ≡ replica_of_hub self.now }
    {
        &self.replica
    }

    /// Takes one event, and answers what is to be done, in order (y-websocket, its server; the
    /// closes are own). Where memory ends the hub is as it was, but for whether its replica is
    /// behind. A message to several sessions is there once. A step takes the time of its message,
    /// of the update that is applied and of the sessions that are addressed; where a session ends,
    /// and where nothing came, it goes over all clients once.
    pub fn step(&mut self, event: &Event) -> Result<ActionList, NoMemory>
        ensures taken { IfOk result (λ actions. TakesHubEvent (replica_of_hub self.old)
            (hub_state self.old) (hub_state self.new) event.entry.now (ordered actions)) }
        ensures sendable { IfOk result AreSendable }
        ensures unchanged { OnErr result (hub_state self.new ≡ hub_state self.old) }
    {
        let _vector = vector_of(&self.replica);
        match &event.what {
            What::Opened(session) => self.open(*session),
            What::Received(session, bytes) => self.hear(*session, bytes.as_slice(), event.now),
            What::Closed(session) => self.close(*session),
            What::Idle => self.age(event.now),
        }
    }

    /// A session comes.
    fn open(&mut self, session: Session) -> Result<ActionList, NoMemory>
        ensures opened { IfOk result (λ actions. Opens (replica_of_hub self.old)
            (hub_state self.old) session.0 (ordered actions)) }
        ensures after { OnOk result (hub_state self.new
            ≡ after_opened (hub_state self.old) session.0) }
        ensures sendable { IfOk result AreSendable }
        ensures unchanged { OnErr result (hub_state self.new ≡ hub_state self.old) }
    {
        let _vector = vector_of(&self.replica);
        if self.sessions.has(session) {
            return Ok(ActionList::none(self.alloc));
        }
        if self.sessions.len() >= MOST_SESSIONS {
            let actions = closing(self.alloc, session, CloseCause::TooManySessions)?;
            return Ok(actions);
        }
        let actions = self.welcome(session)?;
        self.sessions.insert(session)?;
        Ok(actions)
    }

    /// One that comes is asked for what is lacking here, and told who is there.
    fn welcome(&self, session: Session) -> Result<ActionList, NoMemory>
        ensures orders { IfOk result (λ actions. Welcomes (replica_of_hub self.now)
            (hub_state self.now) session.0 (ordered actions)) }
        ensures sendable { IfOk result AreSendable }
    {
        let vector = vector_of(&self.replica).copy()?;
        let states = self.presence.states()?;
        let to = Sessions::only(self.alloc, session)?;
        let mut actions = sending(self.alloc, session, Message::Step1(vector))?;
        actions.reserve()?;
        actions.push_entries(to, states);
        Ok(actions)
    }

    /// Bytes come from a session.
    fn hear(&mut self, session: Session, bytes: &[u8], now: u64) -> Result<ActionList, NoMemory>
        ensures heard { IfOk result (λ actions. Hears (replica_of_hub self.old)
            (hub_state self.old) (hub_state self.new) now session.0 bytes.now (ordered actions)) }
        ensures sendable { IfOk result AreSendable }
        ensures unchanged { OnErr result (hub_state self.new ≡ hub_state self.old) }
    {
        if !self.sessions.has(session) {
            return Ok(ActionList::none(self.alloc));
        }
        match read(self.alloc, bytes) {
            Ok(message) => self.take(session, message, now),
            Err(MessageError::NoMemory) => Err(NoMemory),
            Err(MessageError::Fault(fault)) => self.refuse(session, fault),
        }
    }

    /// Bytes that are no message close their session.
    fn refuse(&mut self, session: Session, fault: MessageFault) -> Result<ActionList, NoMemory>
        ensures after { OnOk result (hub_state self.new
            ≡ after_closed (hub_state self.old) session.0) }
        ensures orders { IfOk result (λ actions. ordered actions ≡ close session.0 (Bad fault)
            ∷ actions_of_closed (hub_state self.old) session.0) }
        ensures sendable { IfOk result AreSendable }
        ensures unchanged { OnErr result (hub_state self.new ≡ hub_state self.old) }
    {
        let actions = closing(self.alloc, session, CloseCause::Bad(fault))?;
        let ended = self.end(session, actions)?;
        Ok(ended)
    }

    /// A session ended.
    fn close(&mut self, session: Session) -> Result<ActionList, NoMemory>
        ensures after { OnOk result (hub_state self.new
            ≡ closed_if_open (hub_state self.old) session.0) }
        ensures orders { IfOk result (λ actions. ordered actions
            ≡ actions_if_open (hub_state self.old) session.0) }
        ensures sendable { IfOk result AreSendable }
        ensures unchanged { OnErr result (hub_state self.new ≡ hub_state self.old) }
    {
        let actions = ActionList::none(self.alloc);
        if !self.sessions.has(session) {
            return Ok(actions);
        }
        let actions = self.end(session, actions)?;
        Ok(actions)
    }

    /// A session is open no more, and the others are told whose states ended with it.
    fn end(&mut self, session: Session, mut actions: ActionList) -> Result<ActionList, NoMemory>
        requires { AreSendable actions }
        ensures after { OnOk result (hub_state self.new
            ≡ after_closed (hub_state self.old) session.0) }
        ensures orders { IfOk result (λ all. ordered all
            ≡ ordered actions ++ actions_of_closed (hub_state self.old) session.0) }
        ensures sendable { IfOk result AreSendable }
        ensures unchanged { OnErr result (hub_state self.new ≡ hub_state self.old) }
    {
        // What may want memory comes first, so that the session and its states end together.
        let others = self.sessions.others(session)?;
        actions.reserve()?;
        let ended = self.presence.drop_from(session)?;
        self.sessions.remove(session);
        actions.push_entries(others, ended);
        Ok(actions)
    }

    /// Nothing came for a while: all are told whose states are old.
    fn age(&mut self, now: u64) -> Result<ActionList, NoMemory>
        ensures after { OnOk result (hub_state self.new ≡ after_idle (hub_state self.old) now) }
        ensures orders { IfOk result (λ actions. ordered actions
            ≡ actions_of_idle (hub_state self.old) now) }
        ensures sendable { IfOk result AreSendable }
        ensures unchanged { OnErr result (hub_state self.new ≡ hub_state self.old) }
    {
        let to = self.sessions.copy()?;
        let mut actions = ActionList::none(self.alloc);
        actions.reserve()?;
        let ended = self.presence.take_old(now)?;
        actions.push_entries(to, ended);
        Ok(actions)
    }
}

/// A close of a session.
fn closing(alloc: Global, session: Session, cause: CloseCause) -> Result<ActionList, NoMemory>
    ensures orders { IfOk result (λ actions. ordered actions ≡ close session.0 cause ∷ []) }
    ensures sendable { IfOk result AreSendable }
{
    let mut actions = ActionList::none(alloc);
    actions.push(Action::Close { to: session, cause })?;
    Ok(actions)
}

/// A message to one session.
pub(crate) fn sending(
    alloc: Global,
    session: Session,
    message: Message,
) -> Result<ActionList, NoMemory>
    requires { IsValidMessage (message_value message) }
    ensures orders { IfOk result (λ actions. ordered actions
        ≡ send session.0 (message_value message) ∷ []) }
    ensures sendable { IfOk result AreSendable }
{
    let to = Sessions::only(alloc, session)?;
    let mut actions = ActionList::none(alloc);
    actions.push(Action::Send { to, message })?;
    Ok(actions)
}
