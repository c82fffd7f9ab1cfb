//! The state of a replica, as one value.

ghost use Rattle.std.specs.Prelude.{◌≡◌, ◌↔◌, ◌⊎◌, ℕ, IsTrue, IfOk, OnOk, OnErr};
ghost use Rattle.yd_words.specs.Member.{IsIn};
ghost use Rattle.yd_ids.specs.Vector.{clock_of};
ghost use Rattle.yd_ops.specs.Valid.{IsValidUpdate};
ghost use Rattle.yd_ops.specs.Operation.{Operation, operations_of};
ghost use Rattle.yd_ops.specs.View.{update_value};
ghost use Rattle.yd_ops.specs.Received.{nothing_received, received_after};
ghost use Rattle.yd_ops.specs.ReceivedLaw.{ArePaired};
ghost use Rattle.yd_meaning.specs.Held.{held_set, held_clock, waiting_counts};
ghost use Rattle.yd_meaning.specs.Document.{AreDeletedIn};
ghost use Rattle.yd_received.specs.Received.{LowersOne};
ghost use Rattle.yd_listing.specs.Falling.{IsTold};
ghost use Rattle.yd_listing.specs.Listing.{Tells, IsFrom};
ghost use Rattle.yd_state.specs.State.{received_in, document_in, IsSound};
ghost use Rattle.yd_state.specs.Brings.{BringsUnknown};
ghost use Rattle.yd_state.specs.Growing.{Grows, LosesNone};
ghost use Rattle.yd_state.specs.Lent.{lent_units, units_left, last_unit, IsAround};

use crate::counting::{count_ids, count_units};
use crate::fault::NoMemory;
use crate::joining::join;
use crate::listing::ListView;
use crate::naming::named_by;
use crate::novelty::brings_deletion;
use crate::sets::Sets;
use crate::settling::settle;
use crate::twin::TwinSet;
use std::alloc::Global;
use std::marker::Model;
use yd_held::Held;
use yd_ids::{Id, IdSet, Vector};
use yd_kept::Kept;
use yd_listing::{last_of, list as units_of, list_around as units_around, list_from as units_from};
use yd_ops::{List, Update};
use yd_received::Received;

/// What was received and is held, a store with just what is held, and what is named, waits and is
/// deleted. Contracts see the ids of each list in place of the store.
#[derive(Drop)]
pub struct State {
    pub(crate) held: Held,
    pub(crate) kept: Kept,
    pub(crate) sets: Sets,
}

impl Model for State {
    ghost use Rattle.yd_state.specs.State.{StateValue};
    ghost use Rattle.yd_state.specs.Grown.{seen_of, IsWhole};
    ghost use Rattle.yd_any.specs.contracts.any_value.AnyList as any_list;
    ghost use Rattle.yd_any.specs.contracts.json_value.Json as json;
    ghost use Rattle.std.specs.Coded.{codes};

    ghost Value = { StateValue };

    ghost coded = { Prim.hlevel (codes, json.the_row.coded, any_list.the_row.coded) };

    ghost view = { λ it. seen_of (record {
      held = it.held;
      named = it.sets.named;
      waiting = it.sets.waiting;
      kept = it.kept;
      deletes = it.sets.deletes;
    }) };

    ghost invariant = { λ it. IsWhole (record {
      held = it.held;
      named = it.sets.named;
      waiting = it.sets.waiting;
      kept = it.kept;
      deletes = it.sets.deletes;
    }) };
}

impl State {
    /// Nothing, received so far.
    pub fn new(alloc: Global) -> State
        ensures received { received_in result ≡ nothing_received }
        ensures sound { IsSound result }
    {
        let held = Held::new(alloc);
        let kept = Kept::new(alloc);
        // That both are sound says that nothing is held.
        let _ = held.received();
        let _ = kept.store();
        State {
            held,
            kept,
            sets: Sets {
                named: TwinSet::new(alloc),
                waiting: IdSet::new(alloc),
                deletes: TwinSet::new(alloc),
            },
        }
    }

    /// Receives an update, holds what can be held then, and puts it into its lists, where the
    /// integration scan puts it. Runs of which all is new are kept, and not copied. It answers whether
    /// the update brought something. It looks at what came, at what waits, and at what is deleted
    /// besides, and at what is known by look-ups alone. A few new spans of deleted ids move those of
    /// their pieces, and many take one pass over all. The sets are copied at their first growth, and at
    /// the first one after memory ended. The clocks of clients are copied once where memory ended before,
    /// or where most entries came just before. Where the update says less of something that was
    /// received, the entries are copied and walked, and each client is tried again; what is gone already
    /// is told so once more. Where a unit that a list had is lost, all lists grow anew. Where memory
    /// ends, nothing has changed that is told.
    pub fn take(&mut self, update: Update) -> Result<bool, NoMemory>
        requires { IsValidUpdate (update_value update) }
        ensures received { OnOk result (received_in self.new
            ≡ received_after (received_in self.old) (update_value update)) }
        ensures brings { IfOk result (λ brings. IsTrue brings
            ↔ BringsUnknown (update_value update) (received_in self.old) self.old.deletes) }
        ensures grows { OnOk result (Grows self.old self.new) }
        ensures loses { OnOk result (LosesNone self.old self.new
            ⊎ LowersOne (operations_of (update_value update))
            (received_in self.old).operations) }
        ensures sound { IsSound self.new }
        ensures unchanged { OnErr result (self.new ≡ self.old) }
    {
        // What is held says what holds before the first growth.
        let _ = self.held.received();
        let more = named_by(&update)?;
        let deletes = brings_deletion(self.sets.named.ids(), self.sets.deletes.ids(), &more);
        let taken = self.held.take(update)?;
        match settle(
            &mut self.kept,
            &self.held,
            taken.anew,
            &taken.told,
            &taken.order,
            &mut self.sets,
            more,
        ) {
            Ok(()) => {
                let brings = taken.brings;
                let single = taken.single;
                self.held.keep(taken);
                join(&mut self.held, &mut self.kept, single);
                // That both are sound says that they still tell what they told.
                let _ = self.held.received();
                let _ = self.kept.store();
                Ok(brings || deletes)
            }
            Err(NoMemory) => {
                // That the store is sound says that its lists tell units still.
                let _ = self.kept.store();
                self.held.put_back(taken.before);
                Err(NoMemory)
            }
        }
    }

    /// Receives a copy of an update, as `take` receives the update itself.
    pub fn take_copy(&mut self, update: &Update) -> Result<bool, NoMemory>
        requires { IsValidUpdate (update_value update.now) }
        ensures received { OnOk result (received_in self.new
            ≡ received_after (received_in self.old) (update_value update.now)) }
        ensures brings { IfOk result (λ brings. IsTrue brings
            ↔ BringsUnknown (update_value update.now) (received_in self.old) self.old.deletes) }
        ensures grows { OnOk result (Grows self.old self.new) }
        ensures loses { OnOk result (LosesNone self.old self.new
            ⊎ LowersOne (operations_of (update_value update.now))
            (received_in self.old).operations) }
        ensures sound { IsSound self.new }
        ensures unchanged { OnErr result (self.new ≡ self.old) }
    {
        // What was received is sound also where there is no memory for the copy.
        let _ = self.received();
        let copy = update.copy()?;
        let brings = self.take(copy)?;
        Ok(brings)
    }

    /// What was received, as it is kept.
    pub fn received(&self) -> &Received
        ensures received { result.now ≡ self.now.held.received }
        ensures sound { IsSound self.now }
    {
        self.held.received()
    }

    /// What is held of it, and the names of its lists.
    pub fn held(&self) -> &Held
        ensures held { result.now ≡ self.now.held }
        ensures sound { IsSound self.now }
    {
        &self.held
    }

    /// The state vector: the clock up to which each client's units are held.
    pub fn vector(&self) -> &Vector
        ensures { (client : ℕ) → clock_of result.now client
            ≡ held_clock (held_set (received_in self.now).operations) client }
    {
        self.held.vector()
    }

    /// The delete set: the held ids that are deleted.
    pub fn deletes(&self) -> &IdSet
        ensures deleted { AreDeletedIn result.now (document_in self.now) }
        ensures own { result.now ≡ self.now.deletes }
    {
        self.sets.deletes.ids()
    }

    /// The ids that received updates delete by name, held or not.
    pub fn named(&self) -> &IdSet
        ensures { result.now ≡ self.now.named }
    {
        self.sets.named.ids()
    }

    /// The units of a list in order, deleted ones too; lost ones are in no list. It takes a look-up
    /// by a hash, and copies no unit.
    pub fn list(&self, list: &List) -> ListView<'_>
        ensures units { units_left result ≡ lent_units (document_in self.now) list.now }
        ensures received { (o : Operation) → IsIn o ((document_in self.now).units list.now)
            → IsIn o (received_in self.now).operations }
        ensures whole { ArePaired (received_in self.now).operations }
    {
        ListView {
            units: units_of(&self.kept, list),
        }
    }

    /// The units of a list in order from the run on that has the unit with an id, deleted ones too, and
    /// none where no unit of the list has the id. It takes a bisection, and a look-up by a hash.
    pub fn list_from(&self, list: &List, id: Id) -> ListView<'_>
        ensures { IsFrom id (lent_units (document_in self.now) list.now) (units_left result) }
    {
        ListView {
            units: units_from(&self.kept, list, id),
        }
    }

    /// The units of a list in order from the run on that stands before the one with an id's unit, deleted
    /// ones too, and all of them where no run does. It takes a bisection, and a look-up by a hash.
    pub fn list_around(&self, list: &List, id: Id) -> ListView<'_>
        ensures around { IsAround id (lent_units (document_in self.now) list.now) (units_left result) }
        ensures received { (o : Operation) → IsIn o ((document_in self.now).units list.now)
            → IsIn o (received_in self.now).operations }
    {
        ListView {
            units: units_around(&self.kept, list, id),
        }
    }

    /// The id of the unit that stands last in a list, deleted or not, and none where the list has no
    /// unit. It takes a look-up by a hash.
    pub fn last_of(&self, list: &List) -> Option<Id>
        ensures { result ≡ last_unit (document_in self.now) list.now }
    {
        last_of(&self.kept, list)
    }

    /// How many units were received that are not held. It takes time with the number of entries.
    pub fn waiting_units(&self) -> u128
        ensures { result ≡ (waiting_counts (received_in self.now)).structs }
    {
        count_units(self.held.received().entries())
    }

    /// How many ids are deleted by name and not held. It takes a look-up for each span.
    pub fn waiting_ids(&self) -> u128
        ensures { result ≡ (waiting_counts (received_in self.now)).deletes }
    {
        count_ids(self.held.vector(), self.sets.named.ids())
    }

    /// The store with just what is held, and the names of its lists; a list may have no unit there.
    pub fn kept(&self) -> &Kept
        ensures tells { Tells result.now (document_in self.now) }
        ensures told { IsTold result.now }
    {
        &self.kept
    }
}
