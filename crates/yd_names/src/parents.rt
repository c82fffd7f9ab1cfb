//! The lists of each parent. A parent is found by its code, or in a crowd.

ghost use Rattle.std.specs.Prelude.{◌≡◌, ◌<◌, ◌++◌, ◌∷◌, [], ℕ, Some, None, length, take, slice_get, IfSome, IfNone, OnOk, OnErr};
ghost use Rattle.yd_names.specs.Coding.{code_of_parent};
ghost use Rattle.yd_names.specs.Names.{IsOf, IsLastOf};
ghost use Rattle.yd_names.specs.Parents.{AreOwned};

use crate::coding::code_of_parent;
use crate::crowds::{join_crowd, keep_below, number_in_crowd};
use crate::groups::Groups;
use crate::same::is_same_parent;
use crate::slots::CROWDED;
use std::alloc::Global;
use yd_ops::{List, NoMemory, Parent};

/// The lists of each parent, which are its group.
#[derive(Drop)]
pub struct Parents {
    /// The groups, with the codes of the parents, and `CROWDED` for those in the crowd.
    pub groups: Groups,
    /// The first lists of parents whose slots were long, in the order of the parents.
    pub crowd: Vec<u32>,
}

impl Parents {
    /// No parent.
    pub fn new(alloc: Global) -> Parents
        ensures { AreOwned [] result.groups result.crowd.items }
    {
        Parents {
            groups: Groups::new(alloc),
            crowd: Vec::new(alloc),
        }
    }

    /// The last list of a parent. It takes a look-up by a hash, and a bisection where many parents
    /// share a slot.
    pub fn last_of(&self, names: &[List], parent: &Parent) -> Option<usize>
        requires { AreOwned names.now self.now.groups self.now.crowd.items }
        ensures { IsLastOf names.now parent.now (length names.now) result }
    {
        if let Some(last) = self.last_by_code(names, parent) {
            return Some(last);
        }
        match number_in_crowd(&self.crowd, names, parent) {
            Some(first) => self.groups.last_of(self.groups.number_of(first)),
            None => None,
        }
    }

    /// The last list of a parent that is found by its code.
    fn last_by_code(&self, names: &[List], parent: &Parent) -> Option<usize>
        requires { AreOwned names.now self.now.groups self.now.crowd.items }
        ensures there { IfSome result
            (λ n. IsLastOf names.now parent.now (length names.now) (Some n)) }
        ensures none { IfNone result ((k n : ℕ) →
            slice_get self.now.groups.codes k ≡ Some (code_of_parent parent.now) →
            slice_get self.now.groups.numbers n ≡ Some k → IsOf names.now parent.now n → ⊥) }
    {
        let mut next = self.groups.codes().last_of(code_of_parent(parent));
        while let Some(number) = next {
            if let Some(last) = self.last_in_group(names, number, parent) {
                return Some(last);
            }
            next = self.groups.codes().before(number);
        }
        None
    }

    /// The last list of a group, if it is a parent's.
    fn last_in_group(&self, names: &[List], number: usize, parent: &Parent) -> Option<usize>
        requires owned { AreOwned names.now self.now.groups self.now.crowd.items }
        requires number { number < length self.now.groups.codes }
        ensures there { IfSome result
            (λ n. IsLastOf names.now parent.now (length names.now) (Some n)) }
        ensures none { IfNone result ((n : ℕ) → slice_get self.now.groups.numbers n ≡ Some number →
            IsOf names.now parent.now n → ⊥) }
    {
        let Some(last) = self.groups.last_of(number) else {
            return None;
        };
        if is_same_parent(&names[last].parent, parent) {
            return Some(last);
        }
        None
    }

    /// One list more.
    pub fn push(&mut self, names: &[List], name: &List) -> Result<(), NoMemory>
        requires { AreOwned names.now self.old.groups self.old.crowd.items }
        ensures pushed { OnOk result
            (AreOwned (names.now ++ name.now ∷ []) self.new.groups self.new.crowd.items) }
        ensures unchanged { OnErr result (AreOwned names.now self.new.groups self.new.crowd.items) }
    {
        if let Some(last) = self.last_of(names, &name.parent) {
            self.groups.push(self.groups.number_of(last))?;
            return Ok(());
        }
        self.push_parent(names, name)
    }

    /// The first list of a parent. The parent joins the crowd where the slot of its code is long.
    fn push_parent(&mut self, names: &[List], name: &List) -> Result<(), NoMemory>
        requires owned { AreOwned names.now self.old.groups self.old.crowd.items }
        requires new { IsLastOf names.now name.now.parent (length names.now) None }
        ensures pushed { OnOk result
            (AreOwned (names.now ++ name.now ∷ []) self.new.groups self.new.crowd.items) }
        ensures unchanged { OnErr result (AreOwned names.now self.new.groups self.new.crowd.items) }
    {
        let code = code_of_parent(&name.parent);
        if self.groups.codes().is_long(code) {
            return self.push_crowded(names, name);
        }
        self.groups.push_group(code)?;
        Ok(())
    }

    /// The first list of a parent in the crowd.
    fn push_crowded(&mut self, names: &[List], name: &List) -> Result<(), NoMemory>
        requires owned { AreOwned names.now self.old.groups self.old.crowd.items }
        requires new { IsLastOf names.now name.now.parent (length names.now) None }
        ensures pushed { OnOk result
            (AreOwned (names.now ++ name.now ∷ []) self.new.groups self.new.crowd.items) }
        ensures unchanged { OnErr result (AreOwned names.now self.new.groups self.new.crowd.items) }
    {
        // The parent goes again where the crowd finds no memory.
        self.groups.push_group(CROWDED)?;
        if join_crowd(&mut self.crowd, names, &name.parent).is_err() {
            self.groups.truncate(names.len());
            return Err(NoMemory);
        }
        Ok(())
    }

    /// Keeps the first lists alone, in time of what it drops and of the crowd.
    pub fn truncate(&mut self, len: usize)
        ensures { (names : _) → AreOwned names self.old.groups self.old.crowd.items →
            AreOwned (take len names) self.new.groups self.new.crowd.items }
    {
        self.groups.truncate(len);
        keep_below(&mut self.crowd, len);
    }
}
