//! A board in memory, with its events given beforehand.

ghost use Rattle.std.specs.Prelude.{◌≡◌, ◌++◌, ◌||◌, [], ◌∷◌, Some, is_err, OnOk, OnErr};
ghost use Rattle.yd_world.specs.Plan.{FailsExactlyWhere, FailsWhere, counted, counted_send, is_due, with_failure};
ghost use Rattle.yd_world.specs.ScriptBoard.{failed_sends, is_used_up, no_script, traffic_of};
ghost use Rattle.yd_world.specs.Traffic.{Closes, Keeps, Sends, TakesEvent};
ghost use Rattle.yd_world.specs.declared.board.Sent.TheVariants.{Message};

use crate::blob::Blob8;
use crate::board::{Sent, Switchboard, Way};
use crate::event::{Event, Session};
use crate::fault::{NoMemory, Outage};
use crate::plan::Plan;
use std::alloc::Global;
use std::collections::VecDeque;
use std::marker::Model;

/// A network in memory, of which all is told (own).
#[derive(Drop)]
pub struct ScriptBoard {
    alloc: Global,
    coming: VecDeque<Event>,
    sent: Vec<Sent>,
    plan: Plan,
}

impl Model for ScriptBoard {
    ghost use Rattle.yd_world.specs.ScriptBoard.{BoardState};

    ghost Value = { BoardState };

    ghost view = { λ b. record { coming = b.coming.items; sent = b.sent.items; plan = b.plan } };
}

impl ScriptBoard {
    /// No event, nothing sent, and no call set to fail.
    pub fn new(alloc: Global) -> Self
        ensures { result ≡ no_script }
    {
        ScriptBoard {
            alloc,
            coming: VecDeque::new(alloc),
            sent: Vec::new(alloc),
            plan: Plan::new(alloc),
        }
    }

    /// One event more is to come, after the others.
    pub fn add(&mut self, e: Event) -> Result<(), NoMemory>
        ensures added { OnOk result
            (self.new ≡ record self.old { coming = self.old.coming ++ e ∷ [] }) }
        ensures unchanged { OnErr result (self.new ≡ self.old) }
    {
        self.coming.push_back(e)?;
        Ok(())
    }

    /// Sets a call to fail. The calls of `start`, `next` and `send` are counted together, from 0
    /// on, and those of `close` are not.
    pub fn fail_at(&mut self, call: u64) -> Result<(), NoMemory>
        ensures set { OnOk result
            (self.new ≡ record self.old { plan = with_failure self.old.plan call }) }
        ensures unchanged { OnErr result (self.new ≡ self.old) }
    {
        self.plan.add(call)
    }

    /// What was sent and closed, in its order, the sends that failed among them.
    pub fn sent(&self) -> &[Sent]
        ensures { result.now ≡ self.now.sent }
    {
        self.sent.as_slice()
    }
}

impl Switchboard for ScriptBoard {
    ghost told = { λ b. Some (traffic_of b) };

    ghost faults = { λ b. b.plan.faults };

    ghost send_faults = { λ b. failed_sends b.sent };

    ghost is_calm = { λ b. b.plan.failures ≡ [] };

    fn start(&mut self, _address: &str, _way: Way) -> Result<(), Outage>
        ensures told { Keeps (Some (traffic_of self.old)) (Some (traffic_of self.new)) }
        ensures fails { FailsExactlyWhere (is_due self.old.plan) result }
        ensures counts { self.new.plan ≡ counted self.old.plan (is_err result) }
    {
        if self.plan.is_due() {
            self.plan.count_failure();
            return Err(Outage::Failed);
        }
        self.plan.count_call();
        Ok(())
    }

    fn next(&mut self) -> Result<Event, Outage>
        ensures takes { TakesEvent (Some (traffic_of self.old)) (Some (traffic_of self.new))
            result }
        ensures fails { FailsExactlyWhere (is_due self.old.plan || is_used_up self.old.coming) result }
        ensures counts { self.new.plan ≡ counted self.old.plan (is_err result) }
    {
        if self.plan.is_due() {
            self.plan.count_failure();
            return Err(Outage::Failed);
        }
        match self.coming.pop_front() {
            None => {
                self.plan.count_failure();
                Err(Outage::Failed)
            }
            Some(event) => {
                self.plan.count_call();
                Ok(event)
            }
        }
    }

    fn send(&mut self, to: Session, message: &[u8]) -> Result<(), Outage>
        ensures sends { Sends (Some (traffic_of self.old)) (Some (traffic_of self.new))
            to.0 message.now result }
        ensures fails { FailsWhere (is_due self.old.plan) result }
        ensures counts { self.new.plan ≡ counted_send self.old.plan result }
    {
        let failed = self.plan.is_due();

        // The memory is found before anything is counted, so that want of it changes nothing.
        if log_message(self.alloc, &mut self.sent, to, message, failed).is_err() {
            return Err(Outage::NoMemory);
        }
        self.plan.count_call();
        if failed {
            return Err(Outage::Failed);
        }
        Ok(())
    }

    fn close(&mut self, to: Session, reason: &str) -> Result<(), NoMemory>
        ensures closes { Closes (Some (traffic_of self.old)) (Some (traffic_of self.new))
            to.0 reason.now result }
        ensures plan { self.new.plan ≡ self.old.plan }
    {
        let reason = Blob8::copy_of(self.alloc, reason.as_bytes())?;
        self.sent.push(Sent::Close { to, reason })?;
        Ok(())
    }
}

/// Notes a message and whether its sending failed.
fn log_message(
    alloc: Global,
    sent: &mut Vec<Sent>,
    to: Session,
    message: &[u8],
    failed: bool,
) -> Result<(), NoMemory>
    ensures noted { OnOk result (sent.new.items
        ≡ sent.old.items ++ Message to message.now failed ∷ []) }
    ensures unchanged { OnErr result (sent.new.items ≡ sent.old.items) }
{
    let bytes = Blob8::copy_of(alloc, message)?;
    sent.push(Sent::Message { to, bytes, failed })?;
    Ok(())
}
