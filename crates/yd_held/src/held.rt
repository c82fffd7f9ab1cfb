//! What is held, as one value.

ghost use Rattle.std.specs.Prelude.{◌≡◌, ◌↔◌, ◌⊎◌, [], IsTrue, IfSome, IfNone, OnOk, OnErr, IfOk, length};
ghost use Rattle.yd_ops.specs.Operation.{operations_of};
ghost use Rattle.yd_ops.specs.Valid.{IsValidUpdate};
ghost use Rattle.yd_ops.specs.View.{update_value};
ghost use Rattle.yd_ops.specs.Received.{with_groups, groups_of};
ghost use Rattle.yd_received.specs.Received.{taken_of, LowersOne, IsSingleOf};
ghost use Rattle.yd_entries.specs.Taking.{BringsOperation};
ghost use Rattle.yd_held.specs.Changing.{KeepsNumbers, back_to};
ghost use Rattle.yd_held.specs.Held.{HoldsAll};
ghost use Rattle.yd_held.specs.Joining.{CameAlone, NoneCameAlone, StaysSame};
ghost use Rattle.yd_held.specs.Turn.{TellsOrder, LosesOne};

use crate::changing::{Changed, change};
use crate::fault::NoMemory;
use crate::parts::{Before, HeldParts};
use crate::twin::caught_up;
use std::alloc::Global;
use std::marker::Model;
use yd_ids::Vector;
use yd_names::Names;
use yd_ops::{List, Update};
use yd_received::Received;

/// What was received, and what is held of it: each unit that has all that it needs.
/// Behind it is a twin of the clocks, which is put back where memory ends in a `take`.
#[derive(Drop)]
pub struct Held {
    parts: HeldParts,
    twin: Option<Vector>,
}

impl Model for Held {
    ghost use Rattle.yd_held.specs.Held.{HeldValue, held_value, HoldsAll};
    ghost use Rattle.yd_held.specs.Twin.{IsTwinOf};
    ghost use Rattle.yd_any.specs.contracts.any_value.AnyList as any_list;
    ghost use Rattle.yd_any.specs.contracts.json_value.Json as json;
    ghost use Rattle.std.specs.Coded.{codes};

    ghost Value = { HeldValue };

    ghost coded = { Prim.hlevel (codes, json.the_row.coded, any_list.the_row.coded) };

    ghost view = { λ it. held_value it.parts };

    ghost invariant = { λ it. HoldsAll (held_value it.parts)
        × IsTwinOf it.parts.vector it.twin };
}

/// What a `take` did.
#[derive(Drop)]
pub struct Taken {
    /// An operation had a new id, or said less than the one that was there.
    pub brings: bool,
    /// All was held anew, since a unit that was in a list is gone. Then the lists may have other
    /// numbers than before.
    pub anew: bool,
    /// The numbers of entries that were held before and are gone, deleted or U+FFFD; each of which less
    /// is told is among them. Where all was held anew there are none.
    pub told: Vec<usize>,
    /// The numbers of the entries that became held, in the order in which they did: each after what
    /// it stands on, and after the smaller clocks of its client.
    pub order: Vec<usize>,
    /// The number of the entry that became held, where no other did and no other is of the last run.
    /// So it can be joined to the one before it ([`Held::join`]). None where less was told of something,
    /// or where not just one run and one entry are new.
    pub single: Option<usize>,
    /// What puts back what was held before.
    pub before: Before,
}

impl Held {
    /// Nothing, received and held so far.
    pub fn new(alloc: Global) -> Held
        ensures { result ≡ record { received = record { runs = []; entries = [] }; vector = []; names = []; lacks = [] } }
    {
        Held {
            parts: HeldParts {
                received: Received::new(alloc),
                vector: Vector::new(alloc),
                names: Names::new(alloc),
                lacks: Vec::new(alloc),
            },
            twin: None,
        }
    }

    /// What was received.
    pub fn received(&self) -> &Received
        ensures received { result.now ≡ self.now.received }
        ensures holds { HoldsAll self.now }
    {
        &self.parts.received
    }

    /// The clock up to which each client's units are held.
    pub fn vector(&self) -> &Vector
        ensures vector { result.now ≡ self.now.vector }
        ensures holds { HoldsAll self.now }
    {
        &self.parts.vector
    }

    /// The names of the lists with units that stand, by number.
    pub fn names(&self) -> &[List]
        ensures names { result.now ≡ self.now.names }
        ensures holds { HoldsAll self.now }
    {
        self.parts.names.as_slice()
    }

    /// Takes memory for so many runs and as many entries ahead, or finds none. It is for what comes
    /// next: nothing changes that is told.
    pub fn reserve(&mut self, more: usize) -> Result<(), NoMemory>
        ensures { self.new ≡ self.old }
    {
        self.parts.received.reserve(more)?;
        Ok(())
    }

    /// Takes in the operations of an update, and holds what can be held then. What lacks something
    /// is noted by it, once for each client, and tried again as soon as that is held; then it is
    /// noted no more. So it takes some look-ups for each new run, for each entry that is held, and
    /// for each time that one is tried, and a copy of what is lacked. The clocks are copied too, unless
    /// the last `take` was kept ([`Held::keep`]). The names of new lists go behind the others. Where an
    /// operation says less than one that was there, what is held stays so, one pass over the entries
    /// finds of which less is told, and each client is tried again. Where one that was in a list is
    /// gone, all that is received is held anew. Where memory ends nothing was taken.
    pub fn take(&mut self, update: Update) -> Result<Taken, NoMemory>
        requires { IsValidUpdate (update_value update) }
        ensures received { OnOk result (taken_of self.new.received
            ≡ with_groups (groups_of (update_value update)) (taken_of self.old.received)) }
        ensures brings { IfOk result (λ taken. IsTrue taken.brings
            ↔ BringsOperation (update_value update) (taken_of self.old.received)) }
        ensures anew { IfOk result (λ taken. IsTrue taken.anew
            → LowersOne (operations_of (update_value update)) (taken_of self.old.received)
            × LosesOne self.old self.new) }
        ensures order { IfOk result (λ taken. TellsOrder taken.anew taken.told.items
            taken.order.items self.old self.new) }
        ensures numbers { IfOk result (λ taken. KeepsNumbers taken.anew
            self.old.names self.new.names) }
        ensures single { IfOk result (λ taken. IfSome taken.single
            (CameAlone taken.order.items self.new)) }
        ensures together { IfOk result (λ taken. IfNone taken.single
            (LowersOne (operations_of (update_value update)) (taken_of self.old.received)
            ⊎ NoneCameAlone (length self.old.received.runs) (length self.old.received.entries)
            taken.order.items self.new)) }
        ensures holds { HoldsAll self.new }
        ensures back { IfOk result (λ taken. back_to taken.before self.new ≡ self.old) }
        ensures unchanged { OnErr result (self.new ≡ self.old) }
    {
        let twin = self.twin.take();
        let mut before = self.parts.before(twin)?;
        match change(&mut self.parts, &mut before, update) {
            Ok(
                Changed {
                    brings,
                    anew,
                    told,
                    order,
                    single,
                },
            ) => Ok(Taken {
                brings,
                anew,
                told,
                order,
                single,
                before,
            }),
            Err(NoMemory) => {
                self.parts.put_back(before);
                Err(NoMemory)
            }
        }
    }

    /// Keeps a `take`: the clocks from before it are brought up to date, and the next `take` needs no
    /// copy. It takes a raise of a clock for each entry that became held. Where most entries did, or
    /// all was held anew, or memory ends, the next `take` makes the copy. Nothing changes that is told.
    pub fn keep(&mut self, taken: Taken)
        requires { TellsOrder taken.anew taken.told.items taken.order.items
            (back_to taken.before self.old) self.old }
        ensures { self.new ≡ self.old }
    {
        let Taken {
            anew,
            order,
            before,
            ..
        } = taken;
        // Where most entries became held, a copy takes no more time than these did.
        if anew || order.len() > self.parts.received.entries().len() / 2 {
            return;
        }
        self.twin = match caught_up(&self.parts, before.vector, &order) {
            Ok(twin) => Some(twin),
            Err(NoMemory) => None,
        };
    }

    /// Joins an entry to the one before it, where both are texts in one list, and it goes on where the
    /// run of the other ends. No operation changes, and what is held stays so. It takes time with the
    /// number of units that are appended, and moves entries of one piece. Where memory ends nothing
    /// has changed. After it, what an earlier `take` gave puts nothing back.
    pub fn join(&mut self, at: usize)
        requires { IsSingleOf self.old.received at }
        ensures same { StaysSame self.old self.new }
        ensures holds { HoldsAll self.new }
    {
        self.parts.received.join(at);
    }

    /// Puts back what was held before a `take`. It takes time with the number of entries.
    pub fn put_back(&mut self, before: Before)
        requires { HoldsAll (back_to before self.old) }
        ensures { self.new ≡ back_to before self.old }
    {
        self.twin = None;
        self.parts.put_back(before);
    }
}
