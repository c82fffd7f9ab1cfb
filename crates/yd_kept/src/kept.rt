//! The store with the names of its lists.

ghost use Rattle.std.specs.Prelude.{◌≡◌, ◌≢◌, ◌<◌, [], ℕ, Some, slice_get, IfSome, IfNone};
ghost use Rattle.yd_ids.specs.Id.{IsSpan};
ghost use Rattle.yd_names.specs.Items.{IsFirstItem};
ghost use Rattle.yd_names.specs.Names.{IsOf, IsLastOf, top_of};
ghost use Rattle.yd_arena.specs.Lists.{AreLists};
ghost use Rattle.yd_arena.specs.Arena.{IsArena, runs_of, count_of, next_clock};
ghost use Rattle.yd_store.specs.Contents.{told_of};
ghost use Rattle.yd_store.specs.Store.{AreTold, IsKept};
ghost use Rattle.yd_kept.specs.Kept.{KeepsHeld};

use std::alloc::Global;
use std::marker::Model;
use yd_ids::{Id, Span};
use yd_names::ItemNames;
use yd_ops::{List, NoMemory, Parent};
use yd_store::Store;

/// The runs that are held, in lists that have names.
///
/// Contracts see the store and the names, each under the number of its list.
#[derive(Drop)]
pub struct Kept {
    pub(crate) store: Store,
    pub(crate) names: ItemNames,
}

impl Model for Kept {
    ghost use Rattle.yd_kept.specs.Kept.{KeptValue, HaveNames};
    ghost use Rattle.yd_any.specs.contracts.any_value.AnyList as any_list;
    ghost use Rattle.yd_any.specs.contracts.json_value.Json as json;
    ghost use Rattle.std.specs.Coded.{codes};

    ghost Value = { KeptValue };

    ghost coded = { Prim.hlevel (codes, json.the_row.coded, any_list.the_row.coded) };

    ghost view = { λ it. record { store = it.store; names = it.names } };

    ghost invariant = { λ it. HaveNames it.store it.names };
}

impl Kept {
    /// No run, and no list. It takes no memory.
    pub fn new(alloc: Global) -> Kept
        ensures names { result.names ≡ [] }
        ensures runs { runs_of result.store.placed ≡ [] }
        ensures lists { count_of result.store.placed ≡ 0 }
        ensures clocks { (client : ℕ) → next_clock result.store.placed client ≡ 0 }
    {
        Kept {
            store: Store::new(alloc),
            names: ItemNames::new(alloc),
        }
    }

    /// The store, and that it is sound.
    pub fn store(&self) -> &Store
        ensures value { result.now ≡ self.now.store }
        ensures arena { IsArena self.now.store.placed.lines (runs_of self.now.store.placed) }
        ensures lists { AreLists self.now.store.placed.linked }
        ensures told { AreTold (runs_of self.now.store.placed) (told_of self.now.store.contents) }
    {
        self.store.is_sound();
        &self.store
    }

    /// Takes memory for so many runs ahead, in whichever lists, or finds none. It is for what comes
    /// next: nothing changes that is told.
    pub fn reserve_places(&mut self, more: usize) -> Result<(), NoMemory>
        ensures same { IsKept self.old.store self.new.store }
        ensures kept { KeepsHeld self.old self.new }
        ensures names { self.new.names ≡ self.old.names }
    {
        self.store.reserve_places(more)
    }

    /// The names of the lists, by number.
    pub fn names(&self) -> &[List]
        ensures { result.now ≡ self.now.names }
    {
        self.names.as_slice()
    }

    /// The number of the list with a name, and none where there is no such list. It takes a look-up
    /// by a hash.
    pub fn number_of(&self, name: &List) -> Option<usize>
        ensures there { IfSome result (λ n. slice_get self.now.names n ≡ Some name.now) }
        ensures within { IfSome result (λ n. n < count_of self.now.store.placed) }
        ensures none { IfNone result ((n : ℕ) → slice_get self.now.names n ≢ Some name.now) }
    {
        self.names.number_of(name)
    }

    /// The last of a parent's lists, or the last one before another of them, as `ItemNames::last_of`
    /// finds it.
    pub fn last_of(&self, parent: &Parent, before: Option<usize>) -> Option<usize>
        requires { IfSome before (λ n. IsOf self.now.names parent.now n) }
        ensures last { IsLastOf self.now.names parent.now (top_of self.now.names before) result }
        ensures within { IfSome result (λ n. n < count_of self.now.store.placed) }
    {
        self.names.last_of(parent, before)
    }

    /// The first item of a span that has a list, as `ItemNames::first_item` finds it.
    pub fn first_item(&self, span: Span) -> Option<Id>
        requires { IsSpan span }
        ensures { IsFirstItem self.now.names span result }
    {
        self.names.first_item(span)
    }
}
