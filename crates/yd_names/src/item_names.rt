//! Names of lists, with the lists of each parent, and the items that have lists in the order of their ids.

ghost use Rattle.std.specs.Prelude.{◌≡◌, ◌≢◌, true, false, ◌++◌, ◌∷◌, [], ℕ, Some, length, take, slice_get, IfSome, IfNone, OnOk, OnErr};
ghost use Rattle.yd_ids.specs.Id.{IsSpan};
ghost use Rattle.yd_names.specs.Items.{HasList, IsFirstItem};
ghost use Rattle.yd_names.specs.Names.{IsOf, IsLastOf, top_of};

use crate::items::{Items, span_behind};
use crate::names::Names;
use crate::parents::Parents;
use std::alloc::Global;
use std::marker::Model;
use yd_ids::{Id, Span};
use yd_ops::{List, NoMemory, Parent};

/// The names of lists, each under the number of its place, which know the lists of each parent and the
/// items that have lists.
#[derive(Drop)]
pub struct ItemNames {
    names: Names,
    parents: Parents,
    items: Items,
}

impl Model for ItemNames {
    ghost use Rattle.std.specs.Prelude.{List};
    ghost use Rattle.yd_ops.specs.declared.lists.List.{List as DocList};
    ghost use Rattle.yd_names.specs.Items.{IsRising, IsKnown, HasItems};
    ghost use Rattle.yd_names.specs.Parents.{AreOwned};

    ghost Value = { List DocList };

    ghost view = { λ it. it.names };

    ghost invariant = { λ it. HasItems it.names (IsKnown it.items.rising.items it.items.others)
        × IsRising it.items.rising.items
        × AreOwned it.names it.parents.groups it.parents.crowd.items };
}

impl ItemNames {
    /// No name.
    pub fn new(alloc: Global) -> ItemNames
        ensures { result ≡ [] }
    {
        ItemNames {
            names: Names::new(alloc),
            parents: Parents::new(alloc),
            items: Items::new(alloc),
        }
    }

    /// How many names there are.
    pub fn len(&self) -> usize
        ensures { result ≡ length self.now }
    {
        self.names.len()
    }

    /// The names, by number.
    pub fn as_slice(&self) -> &[List]
        ensures { result.now ≡ self.now }
    {
        self.names.as_slice()
    }

    /// The number of a name, as `Names::number_of` finds it.
    pub fn number_of(&self, name: &List) -> Option<usize>
        ensures there { IfSome result (λ n. slice_get self.now n ≡ Some name.now) }
        ensures none { IfNone result ((n : ℕ) → slice_get self.now n ≢ Some name.now) }
    {
        self.names.number_of(name)
    }

    /// The last of a parent's lists, or the last one before another of them. So all lists of a
    /// parent are found from the last one on. The last one takes a look-up by a hash, and a
    /// bisection where many parents share a slot. Each one before it takes no look-up.
    pub fn last_of(&self, parent: &Parent, before: Option<usize>) -> Option<usize>
        requires { IfSome before (λ n. IsOf self.now parent.now n) }
        ensures { IsLastOf self.now parent.now (top_of self.now before) result }
    {
        match before {
            None => self.parents.last_of(self.names.as_slice(), parent),
            Some(number) => self.parents.groups.before(number),
        }
    }

    /// The first item of a span that has a list. So all items of a span that have lists are found from
    /// its front on, and no id between them is looked at. It takes time with the logarithm of how many
    /// items have lists, and a look-up for each whose lists were dropped.
    pub fn first_item(&self, span: Span) -> Option<Id>
        requires { IsSpan span }
        ensures { IsFirstItem self.now span result }
    {
        let mut rest = span;
        while let Some(clock) = self.items.first_clock(rest) {
            let item = Id {
                client: rest.client,
                clock,
            };
            if self.has_list(item) {
                return Some(item);
            }
            rest = span_behind(rest, clock);
        }
        None
    }

    /// The item has a list.
    fn has_list(&self, item: Id) -> bool
        ensures here { result ≡ true → HasList self.now item }
        ensures other { result ≡ false → HasList self.now item → ⊥ }
    {
        self.last_of(&Parent::Item(item), None).is_some()
    }

    /// One name more, which gets the next number.
    pub fn push(&mut self, name: List) -> Result<(), NoMemory>
        ensures pushed { OnOk result (self.new ≡ self.old ++ name ∷ []) }
        ensures unchanged { OnErr result (self.new ≡ self.old) }
    {
        let len = self.names.len();
        self.items.add(&name.parent)?;
        self.parents.push(self.names.as_slice(), &name)?;
        if self.names.push(name).is_err() {
            self.parents.truncate(len);
            return Err(NoMemory);
        }
        Ok(())
    }

    /// Keeps the first names alone, in time of what it drops and of the crowds.
    pub fn truncate(&mut self, len: usize)
        ensures { self.new ≡ take len self.old }
    {
        self.names.truncate(len);
        self.parents.truncate(len);
    }
}
