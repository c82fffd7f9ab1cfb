//! Who is there, as a server knows it: it has no own client.

ghost use Rattle.std.specs.Prelude.{◌≡◌, [], None, IfOk, OnOk, OnErr};
ghost use Rattle.yd_words.specs.Each.{Each};
ghost use Rattle.yd_sync.specs.Entry.{IsEntry};
ghost use Rattle.yd_sync.specs.Table.{after_entries, ended_of, is_from, is_old, states_of, taken_of, without_states};

use crate::fault::NoMemory;
use std::alloc::Global;
use std::marker::Model;
use yd_aware::Awareness;
use yd_sync::AwareList;
use yd_world::Session;

/// Who is there: of each client its clock and its state, and from which session these came.
#[derive(Drop)]
pub(crate) struct Presence {
    table: Awareness,
}

impl Model for Presence {
    ghost use Rattle.std.specs.Prelude.{◌≡◌, List, None};
    ghost use Rattle.yd_sync.specs.Table.{Row};

    ghost Value = { List Row };

    ghost view = { λ it. it.table.rows };

    ghost invariant = { λ it. it.table.own ≡ None };
}

impl Presence {
    /// Nobody is known.
    pub(crate) fn new(alloc: Global) -> Result<Presence, NoMemory>
        ensures { IfOk result (λ presence. presence ≡ []) }
    {
        let table = Awareness::new(alloc, None)?;
        Ok(Presence { table })
    }

    /// Takes entries that came from a session at a moment, and answers those that were taken.
    pub(crate) fn take(
        &mut self,
        entries: &AwareList,
        now: u64,
        from: Session,
    ) -> Result<AwareList, NoMemory>
        requires { Each IsEntry entries.now }
        ensures taken { IfOk result (λ taken. taken
            ≡ taken_of None now from.0 entries.now self.old) }
        ensures valid { IfOk result (Each IsEntry) }
        ensures after { OnOk result (self.new
            ≡ after_entries None now from.0 entries.now self.old) }
        ensures unchanged { OnErr result (self.new ≡ self.old) }
    {
        let taken = self.table.apply_from(entries, now, from.0)?;
        Ok(taken)
    }

    /// Ends the states that came last from a session, and answers the entries that tell so.
    pub(crate) fn drop_from(&mut self, session: Session) -> Result<AwareList, NoMemory>
        ensures ended { IfOk result (λ ended. ended ≡ ended_of (is_from session.0) self.old) }
        ensures valid { IfOk result (Each IsEntry) }
        ensures after { OnOk result (self.new ≡ without_states (is_from session.0) self.old) }
        ensures unchanged { OnErr result (self.new ≡ self.old) }
    {
        let ended = self.table.drop_from(session.0)?;
        Ok(ended)
    }

    /// Ends the states that are old at a moment, and answers the entries that tell so.
    pub(crate) fn take_old(&mut self, now: u64) -> Result<AwareList, NoMemory>
        ensures ended { IfOk result (λ ended. ended ≡ ended_of (is_old None now) self.old) }
        ensures valid { IfOk result (Each IsEntry) }
        ensures after { OnOk result (self.new ≡ without_states (is_old None now) self.old) }
        ensures unchanged { OnErr result (self.new ≡ self.old) }
    {
        let ended = self.table.take_old(now)?;
        Ok(ended)
    }

    /// The entries of all states.
    pub(crate) fn states(&self) -> Result<AwareList, NoMemory>
        ensures told { IfOk result (λ es. es ≡ states_of self.now) }
        ensures valid { IfOk result (Each IsEntry) }
    {
        let states = self.table.encode()?;
        Ok(states)
    }
}
