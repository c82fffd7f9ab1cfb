//! What was received, as one value.

ghost use Rattle.std.specs.Prelude.{◌≡◌, ◌≢◌, ◌↔◌, ◌<◌, [], length, IsTrue, OnOk, OnErr, IfOk, IfSome, IfNone};
ghost use Rattle.std.specs.Prelude.{HoldsAt, true};
ghost use Rattle.std.specs.Global.{Global as Allocator};
ghost use Rattle.std.specs.Bool.{OnTrue, OnFalse};
ghost use Rattle.yd_words.specs.Each.{Each};
ghost use Rattle.yd_ops.specs.Operation.{operations_of};
ghost use Rattle.yd_ops.specs.Valid.{IsValidUpdate};
ghost use Rattle.yd_ops.specs.View.{update_value};
ghost use Rattle.yd_ops.specs.Received.{with_groups, groups_of};
ghost use Rattle.yd_entries.specs.Entries.{covers, GrowBy};
ghost use Rattle.yd_received.specs.Received.{IsReceived, taken_of, brings, lowers, LowersOne};
ghost use Rattle.yd_received.specs.Received.{IsBrought, GetsPlace, all_waiting};
ghost use Rattle.yd_received.specs.Received.{put_back, put_back_entries};
ghost use Rattle.yd_received.specs.Received.{IsSingleOf, KeepsTold, JoinsAt};
ghost use Rattle.yd_entries.specs.Staying.{KeepsPlaces};
ghost use Rattle.yd_entries.specs.Taking.{is_covered, BringsOperation};

use crate::brought::Brought;
use crate::restoring::{let_wait, undo_holding};
use crate::updates::take_update;
use std::alloc::Global;
use std::marker::Model;
use yd_entries::{Entries, Entry, NoMemory, Place, entry_at, entry_of, join};
use yd_ids::{Id, Vector};
use yd_ops::{Run, Update};

/// Runs as they came, or joined, and of each the units that were taken: entries in the order of
/// writing.
#[derive(Drop)]
pub struct Received {
    runs: Vec<Run>,
    entries: Entries,
}

impl Model for Received {
    ghost use Rattle.yd_received.specs.Received.{ReceivedValue, IsReceived};
    ghost use Rattle.yd_any.specs.contracts.any_value.AnyList as any_list;
    ghost use Rattle.yd_any.specs.contracts.json_value.Json as json;
    ghost use Rattle.std.specs.Coded.{codes};

    ghost Value = { ReceivedValue };

    ghost coded = { Prim.hlevel (codes, json.the_row.coded, any_list.the_row.coded) };

    ghost view = { λ it. record {
      runs = it.runs.items;
      entries = it.entries;
    } };

    ghost invariant = { λ it. IsReceived (record {
      runs = it.runs.items;
      entries = it.entries;
    }) };
}

impl Received {
    /// Nothing, received so far.
    pub fn new(alloc: Global) -> Received
        ensures { result ≡ record { runs = []; entries = [] } }
    {
        Received {
            runs: Vec::new(alloc),
            entries: Entries::new(alloc),
        }
    }

    /// The runs. Those that came later stand behind the others. What is told no more of a run stays
    /// in it.
    pub fn runs(&self) -> &[Run]
        ensures { result.now ≡ self.now.runs }
    {
        &self.runs
    }

    /// The entries, in the order of writing.
    pub fn entries(&self) -> &Entries
        ensures entries { result.now ≡ self.now.entries }
        ensures kept { IsReceived self.now }
    {
        &self.entries
    }

    /// The allocator that its memory is from, which is the only one of its type.
    pub fn allocator(&self) -> Global
        ensures { (other : Allocator) → result ≡ other }
    {
        *self.runs.allocator()
    }

    /// Takes memory for so many runs and as many entries ahead, or finds none. It is for what comes
    /// next: nothing changes that is told.
    pub fn reserve(&mut self, more: usize) -> Result<(), NoMemory>
        ensures { self.new ≡ self.old }
    {
        self.runs.reserve(more)?;
        self.entries.reserve(more)?;
        Ok(())
    }

    /// Takes in the operations of an update, and answers what that did: an operation may have a new
    /// id, or say less than the one that was there. A run is kept as it is, where its units are new and
    /// go to one place; where only some of them are new, or go to many places, it is copied. For each
    /// entry that has ids of a run, and each new or lowered one, it takes a bisection and an insertion.
    /// All units stay at their places, and new ones wait. Before the first entry is
    /// lowered the entries are copied, and the copy is handed out. Where memory ends nothing was
    /// taken.
    pub fn take(&mut self, update: Update) -> Result<Brought, NoMemory>
        requires { IsValidUpdate (update_value update) }
        ensures received { OnOk result (taken_of self.new
            ≡ with_groups (groups_of (update_value update)) (taken_of self.old)) }
        ensures brings { IfOk result (λ brought. IsTrue (brings brought)
            ↔ BringsOperation (update_value update) (taken_of self.old)) }
        ensures lowers { IfOk result (λ brought. IsTrue (lowers brought)
            → LowersOne (operations_of (update_value update)) (taken_of self.old)) }
        ensures brought { IfOk result (λ brought. IsBrought brought self.old self.new) }
        ensures kept { IsReceived self.new }
        ensures grows { OnOk result (GrowBy self.old.runs self.new.runs) }
        ensures places { OnOk result
            (KeepsPlaces self.old.runs self.old.entries self.new.runs self.new.entries) }
        ensures unchanged { OnErr result (self.new ≡ self.old) }
    {
        let result = take_update(&mut self.runs, &mut self.entries, update);
        result
    }

    /// The place, from 0, of the entry whose units have the id. It takes no memory, and time with
    /// the logarithm of how many entries there are.
    pub fn entry_of(&self, id: Id) -> usize
        requires { is_covered self.now.entries id ≡ true }
        ensures inside { result < length self.now.entries }
        ensures covers { HoldsAt (λ t. covers t id ≡ true) self.now.entries result }
    {
        entry_of(&self.entries, id)
    }

    /// The place, from 0, of the entry that begins at the id, and none where no entry does. It
    /// takes no memory, and time with the logarithm of how many entries there are.
    pub fn entry_at(&self, id: Id) -> Option<usize>
        ensures found { IfSome result (λ at. (at < length self.now.entries)
            × HoldsAt (λ t. t.id ≡ id) self.now.entries at) }
        ensures none { IfNone result (Each (λ t. t.id ≢ id) self.now.entries) }
    {
        entry_at(&self.entries, id)
    }

    /// Notes where the entry at a place stands.
    pub fn hold(&mut self, at: usize, place: Place)
        requires { at < length self.old.entries }
        ensures { GetsPlace at place self.old self.new }
    {
        let entry = self.entries.get(at);
        self.entries.set(at, Entry { place, ..entry });
    }

    /// Lets all units wait. It takes time with the number of entries.
    pub fn wait_all(&mut self)
        ensures { self.new ≡ all_waiting self.old }
    {
        let_wait(&mut self.entries);
    }

    /// Joins the entry at a place to the one before it, and says whether it did: where both are texts
    /// in one list, the entry has all units of the last run, and these go on where the run of the
    /// other ends. It takes time with the number of units that it appends, and moves entries of one
    /// piece. Where memory ends nothing has changed.
    pub fn join(&mut self, at: usize) -> bool
        requires { IsSingleOf self.old at }
        ensures same { KeepsTold self.old self.new }
        ensures joined { OnTrue result (JoinsAt at self.old self.new) }
        ensures unchanged { OnFalse result (self.new ≡ self.old) }
    {
        join(&mut self.runs, &mut self.entries, at)
    }

    /// Puts back what it was when it had the first runs alone, and what is not below these clocks
    /// waited, if only new units were added since. It takes time with the number of entries.
    pub fn put_back(&mut self, count: usize, clocks: &Vector)
        requires { IsReceived (put_back count clocks.now self.old) }
        ensures { self.new ≡ put_back count clocks.now self.old }
    {
        self.runs.truncate(count);
        self.entries.keep_first(count);
        undo_holding(&mut self.entries, clocks);
    }

    /// Puts back the entries that it had when it had the first runs alone.
    pub fn put_back_entries(&mut self, count: usize, entries: Entries)
        requires { IsReceived (put_back_entries count entries self.old) }
        ensures { self.new ≡ put_back_entries count entries self.old }
    {
        self.runs.truncate(count);
        self.entries = entries;
    }
}
