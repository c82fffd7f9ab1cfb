//! Which calls of an object in memory fail, and how many calls and faults there were.

ghost use Rattle.std.specs.Prelude.{◌≡◌, true, false, OnOk, OnErr};
ghost use Rattle.yd_world.specs.Plan.{no_calls, one_more, with_failure, is_due, counted};

use crate::fault::NoMemory;
use std::alloc::Global;
use std::marker::Model;

/// The calls that are set to fail, by their numbers from 0 on, and the two counts (own).
#[derive(Drop)]
pub struct Plan {
    failures: Vec<u64>,
    calls: u64,
    faults: u64,
}

impl Model for Plan {
    ghost use Rattle.yd_world.specs.Plan.{PlanState};

    ghost Value = { PlanState };

    ghost view = { λ p. record {
      failures = p.failures.items;
      calls = p.calls;
      faults = p.faults;
    } };
}

impl Plan {
    /// No call is set to fail.
    pub fn new(alloc: Global) -> Plan
        ensures { result ≡ no_calls }
    {
        Plan {
            failures: Vec::new(alloc),
            calls: 0,
            faults: 0,
        }
    }

    /// Sets one call more to fail.
    pub fn add(&mut self, call: u64) -> Result<(), NoMemory>
        ensures added { OnOk result (self.new ≡ with_failure self.old call) }
        ensures unchanged { OnErr result (self.new ≡ self.old) }
    {
        self.failures.push(call)?;
        Ok(())
    }

    /// Whether the call that comes now is set to fail.
    pub fn is_due(&self) -> bool
        ensures { result ≡ is_due self.now }
    {
        self.failures.contains(&self.calls)
    }

    /// Counts a call, and no fault of this count.
    pub fn count_call(&mut self)
        ensures { self.new ≡ counted self.old false }
    {
        self.calls = one_more(self.calls);
    }

    /// Counts a call and a fault.
    pub fn count_failure(&mut self)
        ensures { self.new ≡ counted self.old true }
    {
        self.calls = one_more(self.calls);
        self.faults = one_more(self.faults);
    }
}

/// One more, and at the greatest number no more.
pub fn one_more(count: u64) -> u64
    ensures { result ≡ one_more count }
{
    if count < u64::MAX { count + 1 } else { count }
}
