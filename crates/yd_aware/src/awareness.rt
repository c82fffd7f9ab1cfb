//! The table as a value.

ghost use Rattle.std.specs.Prelude.{◌≡◌, ◌↔◌, ◌∷◌, [], ℕ, Option, Some, None, true, is_some, Err, IfSome, IsSome, IfOk, OnOk, OnErr};
ghost use Rattle.std.specs.Option.{option_copied};
ghost use Rattle.yd_words.specs.Each.{Each};
ghost use Rattle.yd_ids.specs.Id.{IsClient};
ghost use Rattle.yd_sync.specs.Entry.{IsEntry, IsState};
ghost use Rattle.yd_sync.specs.Table.{after_entries, ended_of, is_due, is_from, is_of, is_old, own_entry, standing_in, states_of, taken_of, without_states};
ghost use Rattle.yd_aware.specs.AwareTable.{after_renewal, after_set, is_clock_full, nobody, own_standing, with_rows};
ghost use Rattle.yd_aware.specs.Rows.{clock_where_stated};
ghost use Rattle.yd_aware.specs.declared.fault.AwareFault.TheVariants.{ClockFull};

use crate::ending::{Ending, end_each, ended};
use crate::fault::AwareFault;
use crate::own::{is_due, is_full, renew_own, set_own};
use crate::rows::{Rows, end_state, seat_of};
use crate::taking::{Arrival, take_all};
use crate::telling::{lent, own_entry, states};
use std::alloc::Global;
use std::collections::BTreeMap;
use std::marker::Model;
use yd_any::Text;
use yd_ids::Client;
use yd_sync::{AwareList, NoMemory};

/// Who is there: of each client its clock and its state, when they were taken or set, and from which
/// session (y-protocols, awareness.js; sessions in the table are own). A client of which nothing was
/// heard is at clock 0 without a state. There may be an own client.
#[derive(Drop)]
pub struct Awareness {
    alloc: Global,
    own: Option<Client>,
    rows: Rows,
}

impl Model for Awareness {
    ghost use Rattle.yd_aware.specs.AwareTable.{AwareTable, IsAwareTable};

    ghost Value = { AwareTable };

    ghost view = { λ it. record { own = it.own; rows = it.rows.entries } };

    ghost invariant = { λ it. IsAwareTable (record { own = it.own; rows = it.rows.entries }) };
}

impl Awareness {
    /// A table of which nobody is known, with this own client, if any. It takes no memory.
    pub fn new(alloc: Global, own: Option<Client>) -> Result<Awareness, NoMemory>
        requires { IfSome own IsClient }
        ensures { IfOk result (λ table. table ≡ nobody own) }
    {
        Ok(Awareness {
            alloc,
            own,
            rows: BTreeMap::new(alloc),
        })
    }

    /// The own client.
    pub fn own(&self) -> Option<Client>
        ensures own { result ≡ self.now.own }
        ensures valid { IfSome result IsClient }
    {
        self.own
    }

    /// Takes entries in order that came at a moment, in milliseconds, and answers those that were
    /// taken (y-protocols, applyAwarenessUpdate). It is `apply_from` with source 0.
    pub fn apply(&mut self, entries: &AwareList, now: u64) -> Result<AwareList, NoMemory>
        requires { Each IsEntry entries.now }
        ensures taken { IfOk result (λ taken. taken
            ≡ taken_of self.old.own now 0 entries.now self.old.rows) }
        ensures valid { IfOk result (Each IsEntry) }
        ensures after { OnOk result (self.new ≡ with_rows self.old
            (after_entries self.old.own now 0 entries.now self.old.rows)) }
        ensures unchanged { OnErr result (self.new ≡ self.old) }
    {
        self.apply_from(entries, now, 0)
    }

    /// The same of entries that came from a session. An entry is taken where its clock is greater,
    /// or equal and it ends a state. One that would end the own state raises the own clock above its
    /// own instead, and is ignored where that would pass 2^53-1. It takes time with the entries, and
    /// for each with the logarithm of how many clients are known.
    pub fn apply_from(
        &mut self,
        entries: &AwareList,
        now: u64,
        source: u64,
    ) -> Result<AwareList, NoMemory>
        requires { Each IsEntry entries.now }
        ensures taken { IfOk result (λ taken. taken
            ≡ taken_of self.old.own now source entries.now self.old.rows) }
        ensures valid { IfOk result (Each IsEntry) }
        ensures after { OnOk result (self.new ≡ with_rows self.old
            (after_entries self.old.own now source entries.now self.old.rows)) }
        ensures unchanged { OnErr result (self.new ≡ self.old) }
    {
        let arrival = Arrival {
            moment: now,
            source,
        };
        let result = take_all(
            self.alloc,
            &mut self.rows,
            self.own,
            entries.as_slice(),
            arrival,
        );
        result
    }

    /// Sets the own state at a moment, in milliseconds: the own clock rises by one (y-protocols,
    /// setLocalState).
    pub fn set_local(&mut self, state: Option<Text>, now: u64) -> Result<(), AwareFault>
        requires own { IsSome self.old.own }
        requires state { IfSome state IsState }
        ensures set { OnOk result (self.new ≡ with_rows self.old
            (after_set self.old.own state now self.old.rows)) }
        ensures full { (result ≡ Err ClockFull)
            ↔ (is_clock_full self.old.own self.old.rows ≡ true) }
        ensures unchanged { OnErr result (self.new ≡ self.old) }
    {
        let Some(own) = self.own else {
            return Ok(());
        };
        let result = set_own(&mut self.rows, own, state, now);
        result
    }

    /// Sets the own state that there is, if any, once more at a moment, in milliseconds (y-protocols,
    /// the renewal of the own state). It takes no memory.
    pub fn renew(&mut self, now: u64) -> Result<(), AwareFault>
        ensures renewed { OnOk result (self.new ≡ with_rows self.old
            (after_renewal self.old.own now self.old.rows)) }
        ensures full { (result ≡ Err ClockFull)
            ↔ (is_some (own_standing self.old.own self.old.rows).state ≡ true)
            × (is_clock_full self.old.own self.old.rows ≡ true) }
        ensures only_full { OnErr result (result ≡ Err ClockFull) }
        ensures unchanged { OnErr result (self.new ≡ self.old) }
    {
        let Some(own) = self.own else {
            return Ok(());
        };
        let result = renew_own(&mut self.rows, own, now);
        result
    }

    /// Whether there is an own state that was set 15,000 ms or more before this moment.
    pub fn is_due(&self, now: u64) -> bool
        ensures { result ≡ is_due self.now.own now self.now.rows }
    {
        is_due(&self.rows, self.own, now)
    }

    /// Whether the own clock is 2^53-1, so that the own state cannot be set.
    pub fn is_full(&self) -> bool
        ensures { result ≡ is_clock_full self.now.own self.now.rows }
    {
        is_full(&self.rows, self.own)
    }

    /// The own client's entry, where there is an own client.
    pub fn own_entry(&self) -> Result<AwareList, NoMemory>
        ensures told { IfOk result (λ es. es ≡ own_entry self.now.own self.now.rows) }
        ensures valid { IfOk result (Each IsEntry) }
    {
        let told = own_entry(self.alloc, &self.rows, self.own)?;
        Ok(told)
    }

    /// Ends each state of another that was last taken 30,000 ms or more before this moment, and
    /// answers the entries that tell so, clients ascending (y-protocols, outdatedTimeout). It goes
    /// over all clients once.
    pub fn take_old(&mut self, now: u64) -> Result<AwareList, NoMemory>
        ensures ended { IfOk result (λ ended. ended
            ≡ ended_of (is_old self.old.own now) self.old.rows) }
        ensures valid { IfOk result (Each IsEntry) }
        ensures after { OnOk result (self.new ≡ with_rows self.old
            (without_states (is_old self.old.own now) self.old.rows)) }
        ensures unchanged { OnErr result (self.new ≡ self.old) }
    {
        let ended = ended(self.alloc, &self.rows, Ending::Old(self.own, now))?;
        end_each(&mut self.rows, ended.as_slice());
        Ok(ended)
    }

    /// Ends each state that was last taken from a session, and answers the entries that tell so,
    /// clients ascending (y-websocket, a connection that closes). It goes over all clients once.
    pub fn drop_from(&mut self, source: u64) -> Result<AwareList, NoMemory>
        ensures ended { IfOk result (λ ended. ended ≡ ended_of (is_from source) self.old.rows) }
        ensures valid { IfOk result (Each IsEntry) }
        ensures after { OnOk result (self.new ≡ with_rows self.old
            (without_states (is_from source) self.old.rows)) }
        ensures unchanged { OnErr result (self.new ≡ self.old) }
    {
        let ended = ended(self.alloc, &self.rows, Ending::From(source))?;
        end_each(&mut self.rows, ended.as_slice());
        Ok(ended)
    }

    /// Ends the state of a client, and answers the clock at which it ended (y-protocols,
    /// removeAwarenessStates).
    pub fn drop_state(&mut self, client: Client) -> Option<u64>
        ensures ended { self.new ≡ with_rows self.old
            (without_states (is_of client.0) self.old.rows) }
        ensures clock { result ≡ clock_where_stated (standing_in self.old.rows client.0) }
    {
        let clock = end_state(&mut self.rows, client.0);
        clock
    }

    /// The entries of all states, clients ascending (y-protocols, encodeAwarenessUpdate).
    pub fn encode(&self) -> Result<AwareList, NoMemory>
        ensures told { IfOk result (λ es. es ≡ states_of self.now.rows) }
        ensures valid { IfOk result (Each IsEntry) }
    {
        let told = states(self.alloc, &self.rows)?;
        Ok(told)
    }

    /// The clock and the state of a client.
    pub fn get(&self, client: Client) -> (u64, Option<&str>)
        ensures clock { result.0 ≡ (standing_in self.now.rows client.0).clock }
        ensures state { option_copied result.1 ≡ (standing_in self.now.rows client.0).state }
        ensures valid { IfSome (standing_in self.now.rows client.0).state IsState }
    {
        match seat_of(&self.rows, client.0) {
            None => (0, None),
            Some(seat) => (seat.clock, lent(&seat.state)),
        }
    }
}
