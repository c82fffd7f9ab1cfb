//! Messages that come to a hub.

ghost use Rattle.std.specs.Prelude.{◌≡◌, IfOk, OnOk, OnErr};
ghost use Rattle.yd_words.specs.Each.{Each};
ghost use Rattle.yd_ops.specs.Valid.{IsValidUpdate};
ghost use Rattle.yd_ops.specs.View.{update_value};
ghost use Rattle.yd_sync.specs.Entry.{IsEntry};
ghost use Rattle.yd_sync.specs.Message.{IsValidMessage, aware, message_value, query, step1};
ghost use Rattle.yd_hub.specs.Hub.{after_update};
ghost use Rattle.yd_hub.specs.Orders.{AreSendable, ordered};
ghost use Rattle.yd_machines.specs.HubStep.{HubTakes, IsNewsTo, hub_state, replica_of_hub};

use crate::fault::NoMemory;
use crate::hub::{Hub, sending};
use yd_hub::{Action, ActionList};
use yd_ids::Vector;
use yd_ops::Update;
use yd_sync::{AwareList, Message};
use yd_world::Session;

impl Hub {
    /// Takes a message from an open session: a question is answered, and what is new goes to the
    /// others.
    pub(crate) fn take(
        &mut self,
        session: Session,
        message: Message,
        now: u64,
    ) -> Result<ActionList, NoMemory>
        requires { IsValidMessage (message_value message) }
        ensures taken { IfOk result (λ actions. HubTakes (replica_of_hub self.old)
            (hub_state self.old) (hub_state self.new) now session.0 (message_value message)
            (ordered actions)) }
        ensures sendable { IfOk result AreSendable }
        ensures unchanged { OnErr result (hub_state self.new ≡ hub_state self.old) }
    {
        match message {
            Message::Step1(vector) => self.answer(session, &vector, now),
            Message::Step2(update) => self.pass_on(session, update),
            Message::Change(update) => self.pass_on(session, update),
            Message::Aware(entries) => self.take_entries(session, &entries, now),
            Message::Auth(_) => Ok(ActionList::none(self.alloc)),
            Message::Query => self.tell_states(session, now),
        }
    }

    /// Answers a state vector with all that its asker lacks.
    fn answer(
        &mut self,
        session: Session,
        vector: &Vector,
        now: u64,
    ) -> Result<ActionList, NoMemory>
        ensures taken { IfOk result (λ actions. HubTakes (replica_of_hub self.old)
            (hub_state self.old) (hub_state self.new) now session.0 (step1 vector.now)
            (ordered actions)) }
        ensures sendable { IfOk result AreSendable }
        ensures unchanged { hub_state self.new ≡ hub_state self.old }
    {
        let update = self.replica.reply(vector)?;
        let actions = sending(self.alloc, session, Message::Step2(update))?;
        Ok(actions)
    }

    /// Applies an update, and tells the others, where it is news.
    fn pass_on(&mut self, session: Session, update: Update) -> Result<ActionList, NoMemory>
        requires { IsValidUpdate (update_value update) }
        ensures after { OnOk result (hub_state self.new
            ≡ after_update (hub_state self.old) (update_value update)) }
        ensures orders { IfOk result (λ actions. IsNewsTo (replica_of_hub self.old)
            (hub_state self.old) session.0 (update_value update) (ordered actions)) }
        ensures sendable { IfOk result AreSendable }
        ensures unchanged { OnErr result (hub_state self.new ≡ hub_state self.old) }
    {
        // What may want memory comes first, so that no update is applied and not passed on.
        let others = self.sessions.others(session)?;
        let mut actions = ActionList::none(self.alloc);
        actions.reserve()?;
        let brings = self.replica.apply(&update)?;
        if !brings {
            return Ok(actions);
        }
        let message = Message::Change(update);
        actions.push_reserved(Action::Send {
            to: others,
            message,
        });
        Ok(actions)
    }

    /// Takes entries, and tells the others those that were taken.
    fn take_entries(
        &mut self,
        session: Session,
        entries: &AwareList,
        now: u64,
    ) -> Result<ActionList, NoMemory>
        requires { Each IsEntry entries.now }
        ensures taken { IfOk result (λ actions. HubTakes (replica_of_hub self.old)
            (hub_state self.old) (hub_state self.new) now session.0 (aware entries.now)
            (ordered actions)) }
        ensures sendable { IfOk result AreSendable }
        ensures unchanged { OnErr result (hub_state self.new ≡ hub_state self.old) }
    {
        let to = self.sessions.others(session)?;
        let mut actions = ActionList::none(self.alloc);
        actions.reserve()?;
        let taken = self.presence.take(entries, now, session)?;
        actions.push_entries(to, taken);
        Ok(actions)
    }

    /// Tells a session who is there.
    fn tell_states(&mut self, session: Session, now: u64) -> Result<ActionList, NoMemory>
        ensures taken { IfOk result (λ actions. HubTakes (replica_of_hub self.old)
            (hub_state self.old) (hub_state self.new) now session.0 query (ordered actions)) }
        ensures sendable { IfOk result AreSendable }
        ensures unchanged { hub_state self.new ≡ hub_state self.old }
    {
        let states = self.presence.states()?;
        let actions = sending(self.alloc, session, Message::Aware(states))?;
        Ok(actions)
    }
}
