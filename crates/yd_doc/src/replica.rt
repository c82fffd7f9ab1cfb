//! Replicas: what one client received, and what it holds of it.

ghost use Rattle.std.specs.Prelude.{◌≡◌, ◌↔◌, ℕ, true, false, IsTrue, IfOk, OnOk, OnErr};
ghost use Rattle.yd_ids.specs.Id.{IsClient};
ghost use Rattle.yd_ids.specs.Vector.{clock_of};
ghost use Rattle.yd_ops.specs.Valid.{IsValidUpdate};
ghost use Rattle.yd_ops.specs.View.{update_value};
ghost use Rattle.yd_ops.specs.Received.{nothing_received, received_after};
ghost use Rattle.yd_meaning.specs.Held.{held_set, held_clock, waiting_counts};
ghost use Rattle.yd_meaning.specs.Document.{AreDeletedIn};
ghost use Rattle.yd_grouping.specs.Merged.{reply_of};
ghost use Rattle.yd_listing.specs.Listing.{Tells};
ghost use Rattle.yd_state.specs.Brings.{BringsUnknown};
ghost use Rattle.yd_doc.specs.Editing.{GrowsUnlessLost};
ghost use Rattle.yd_doc.specs.Kept.{received_of, own_deletes, own_document};
ghost use Rattle.yd_doc.specs.Waiting.{counts_of};

use crate::fault::NoMemory;
use crate::waiting::Waiting;
use std::alloc::Global;
use std::marker::Model;
use yd_ids::{Client, IdSet, Vector};
use yd_kept::Kept;
use yd_merge::write_cut;
use yd_ops::Update;
use yd_state::State;

/// What one client received, and what it holds of it. Contracts see what it received
/// (`received_of`) and the document that it has (`own_document`), which is one that a replica may
/// have that received this (`law::own_document_is_replicas`). Where the edit rules are kept, it is the
/// one that the received operations and deletions define, with no history of arrivals.
#[derive(Drop)]
pub struct Replica {
    pub(crate) alloc: Global,
    pub(crate) client: Client,
    pub(crate) is_behind: bool,
    pub(crate) state: State,
}

impl Model for Replica {
    ghost use Rattle.yd_doc.specs.Kept.{Kept, IsReplica};
    ghost use Rattle.yd_any.specs.contracts.any_value.AnyList as any_list;
    ghost use Rattle.yd_any.specs.contracts.json_value.Json as json;
    ghost use Rattle.std.specs.Coded.{codes};

    ghost Value = { Kept };

    ghost coded = { Prim.hlevel (codes, json.the_row.coded, any_list.the_row.coded) };

    ghost view = { λ it. record {
      client = it.client;
      is_behind = it.is_behind;
      state = it.state;
    } };

    ghost invariant = { λ it. IsReplica (record {
      client = it.client;
      is_behind = it.is_behind;
      state = it.state;
    }) };
}

impl Replica {
    /// A replica of this client that has received nothing.
    pub fn new(alloc: Global, client: Client) -> Result<Replica, NoMemory>
        requires { IsClient client }
        ensures received { IfOk result (λ replica. received_of replica ≡ nothing_received) }
        ensures client { IfOk result (λ replica. replica.client ≡ client) }
        ensures caught_up { IfOk result (λ replica. replica.is_behind ≡ false) }
    {
        Ok(Replica {
            alloc,
            client,
            is_behind: false,
            state: State::new(alloc),
        })
    }

    /// The client that the replica was made for.
    pub fn client(&self) -> Client
        ensures { result ≡ self.now.client }
    {
        self.client
    }

    /// Receives an update, and holds and deletes all that can be then. It answers whether the
    /// update brought something: an operation whose id was not received or that says less than the
    /// received one, or a deleted id that was neither in the delete set nor waiting; an update also
    /// deletes what it spells deleted or gone. Where memory ends it has received nothing of the
    /// update, tells what it told before, and is behind.
    ///
    /// What waits is not looked at again until what it lacks is held. Each new run goes into its list by
    /// the integration scan, whose steps are runs. The call takes time with the update and with what is
    /// deleted besides; of what is known, it copies the clocks of the clients, and moves entries of one
    /// piece for a new one, and the spans behind a new one. No list is walked as a whole, and no deleted
    /// run unit by unit. At the end the last run that came may be joined to what it goes on with: a text, or deleted
    /// units in a list.
    ///
    /// Where the update says less of something that was received, this is told less where it stands. The
    /// entries of all that was received are copied and walked then, and each client is tried again. Where
    /// a unit that a list had is lost, all that is received is held anew, and all lists grow anew. The
    /// contents of lowered units stay in memory.
    pub fn apply(&mut self, update: &Update) -> Result<bool, NoMemory>
        requires { IsValidUpdate (update_value update.now) }
        ensures received { OnOk result (received_of self.new
            ≡ received_after (received_of self.old) (update_value update.now)) }
        ensures brings { IfOk result (λ brings. IsTrue brings ↔ BringsUnknown
            (update_value update.now) (received_of self.old) (own_deletes self.old)) }
        ensures grows { OnOk result (GrowsUnlessLost
            (update_value update.now) self.old self.new) }
        ensures caught_up { OnOk result (self.new.is_behind ≡ false) }
        ensures client { self.new.client ≡ self.old.client }
        ensures unchanged { OnErr result (received_of self.new ≡ received_of self.old) }
        ensures shows { OnErr result (own_document self.new ≡ own_document self.old) }
        ensures behind { OnErr result (self.new.is_behind ≡ true) }
    {
        let applied = self.state.take_copy(update);
        self.is_behind = applied.is_err();
        let brings = applied?;
        Ok(brings)
    }

    /// An `apply` found no memory, and none has succeeded since.
    pub fn is_behind(&self) -> bool
        ensures { result ≡ self.now.is_behind }
    {
        self.is_behind
    }

    /// The state vector: the clock up to which each client's units are held.
    pub fn vector(&self) -> &Vector
        ensures { (client : ℕ) → clock_of result.now client
            ≡ held_clock (held_set (received_of self.now).operations) client }
    {
        self.state.vector()
    }

    /// The delete set: the held ids that are deleted.
    pub fn deletes(&self) -> &IdSet
        ensures deleted { AreDeletedIn result.now (own_document self.now) }
        ensures own { result.now ≡ own_deletes self.now }
    {
        self.state.deletes()
    }

    /// The store of what is held, and the names of its lists. Each of its lists has the units that
    /// `list` lends of that name, in the same order, and no others; the deleted ones are marked (own).
    pub fn store(&self) -> &Kept
        ensures { Tells result.now (own_document self.now) }
    {
        self.state.kept()
    }

    /// How much was received that is not held yet: units of runs, and deleted ids. It takes a
    /// look-up for each part of a run that was received and for each span of deletions.
    pub fn waiting(&self) -> Waiting
        ensures { counts_of result ≡ waiting_counts (received_of self.now) }
    {
        Waiting {
            structs: self.state.waiting_units(),
            deletes: self.state.waiting_ids(),
        }
    }

    /// The answer to whoever has this state vector (Yjs 13, encodeStateAsUpdate): all that was received
    /// from there on, held or waiting, as one grouped update. Its deletions are the delete set and all
    /// received deletions, waiting ones too, also where no operation is new to the asker. A pair stays
    /// whole, so a reply may begin one unit below the vector. Once the asker takes it, it has what this
    /// replica received (`law::replies_complete`). It takes a look-up for each part of a run that was
    /// received, and the time and memory of what it answers.
    pub fn reply(&self, vector: &Vector) -> Result<Update, NoMemory>
        ensures replies { IfOk result (λ update. update_value update
            ≡ reply_of (received_of self.now) (own_deletes self.now) (clock_of vector.now)) }
        ensures valid { IfOk result (λ update. IsValidUpdate (update_value update)) }
    {
        let mut deletes = self.state.deletes().copy()?;
        deletes.union(self.state.named())?;
        let update = write_cut(self.alloc, self.state.received(), vector, deletes)?;
        Ok(update)
    }
}
