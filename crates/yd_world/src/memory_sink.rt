//! A sink in memory.

ghost use Rattle.std.specs.Prelude.{◌≡◌, ◌≤◌, Some, length, IfOk, OnOk, OnErr};
ghost use Rattle.yd_world.specs.MemorySink.{IsCalm, fails_to_write, is_full, no_bytes, room_for};
ghost use Rattle.yd_world.specs.Plan.{FailsWhere, counted_outage, with_failure};
ghost use Rattle.yd_world.specs.Taken.{Takes};

use crate::fault::{NoMemory, Outage};
use crate::plan::Plan;
use crate::sink::Sink;
use std::alloc::Global;
use std::marker::Model;

/// Bytes taken into memory, of which all is told (own).
#[derive(Drop)]
pub struct MemorySink {
    bytes: Vec<u8>,
    limit: Option<u64>,
    plan: Plan,
}

impl Model for MemorySink {
    ghost use Rattle.yd_world.specs.MemorySink.{SinkState};

    ghost Value = { SinkState };

    ghost view = { λ s. record { bytes = s.bytes.items; limit = s.limit; plan = s.plan } };
}

impl MemorySink {
    /// No byte, no call set to fail, and no limit.
    pub fn new(alloc: Global) -> Self
        ensures { result ≡ no_bytes }
    {
        MemorySink {
            bytes: Vec::new(alloc),
            limit: None,
            plan: Plan::new(alloc),
        }
    }

    /// The bytes that were taken.
    pub fn as_slice(&self) -> &[u8]
        ensures { result.now ≡ self.now.bytes }
    {
        self.bytes.as_slice()
    }

    /// Sets a call of `write` to fail, counted from 0 on.
    pub fn fail_at(&mut self, call: u64) -> Result<(), NoMemory>
        ensures set { OnOk result
            (self.new ≡ record self.old { plan = with_failure self.old.plan call }) }
        ensures unchanged { OnErr result (self.new ≡ self.old) }
    {
        self.plan.add(call)
    }

    /// From now on so many bytes are taken in all, those included that were taken before, and
    /// every write after them fails.
    pub fn fail_after(&mut self, bytes: u64)
        ensures { self.new ≡ record self.old { limit = Some bytes } }
    {
        self.limit = Some(bytes);
    }
}

impl Sink for MemorySink {
    ghost bytes_taken = { λ s. Some s.bytes };

    ghost faults = { λ s. s.plan.faults };

    ghost is_calm = { IsCalm };

    fn write(&mut self, piece: &[u8]) -> Result<usize, Outage>
        ensures within { IfOk result (λ count. count ≤ length piece.now) }
        ensures takes { Takes (Some self.old.bytes) (Some self.new.bytes) piece.now result }
        ensures whole { IfOk result (λ count. count
            ≡ room_for self.old.limit (length self.old.bytes) (length piece.now)) }
        ensures fails { FailsWhere (fails_to_write self.old) result }
        ensures counts { self.new.plan ≡ counted_outage self.old.plan result }
        ensures limit { self.new.limit ≡ self.old.limit }
    {
        let taken = self.bytes.len() as u64;
        if self.plan.is_due() || is_full(self.limit, taken) {
            self.plan.count_failure();
            return Err(Outage::Failed);
        }
        let count = room_for(self.limit, taken, piece.len());
        if self.bytes.extend_from_slice(&piece[..count]).is_err() {
            return Err(Outage::NoMemory);
        }
        self.plan.count_call();
        Ok(count)
    }
}

/// Whether so many bytes reach the limit.
fn is_full(limit: Option<u64>, taken: u64) -> bool
    ensures { result ≡ is_full limit taken }
{
    match limit {
        None => false,
        Some(limit) => limit <= taken,
    }
}

/// How many of a piece's bytes fit under the limit, beside those that are taken.
fn room_for(limit: Option<u64>, taken: u64, count: usize) -> usize
    ensures room { result ≡ room_for limit taken count }
    ensures within { result ≤ count }
{
    match limit {
        None => count,
        Some(limit) => limit.saturating_sub(taken).min(count as u64) as usize,
    }
}
