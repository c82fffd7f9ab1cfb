//! Places in groups, each of which has a code and knows its last place.

ghost use Rattle.std.specs.Prelude.{◌≡◌, ◌≢◌, ◌<◌, ◌-◌, ◌++◌, ◌∷◌, [], ℕ, Some, length, take, slice_get, IfSome, IfOk, OnOk, OnErr};
ghost use Rattle.yd_names.specs.Codes.{last_place};
ghost use Rattle.yd_names.specs.Groups.{with_place, with_group, KeepsFront, KeepsGroups};

use crate::codes::Codes;
use crate::slots::{Slots, narrowed, place_of};
use std::alloc::Global;
use std::marker::Model;
use yd_ops::NoMemory;

/// Places in a row, each in a group. How many places a group has costs the others no time.
#[derive(Drop)]
pub struct Groups {
    // The codes of the groups, by number.
    codes: Codes,
    // The numbers of the groups, by place.
    numbers: Vec<u32>,
    // The places of each group.
    places: Slots,
}

impl Model for Groups {
    ghost use Rattle.yd_names.specs.Groups.{AreGrouped, GroupTable};

    ghost Value = { GroupTable };

    ghost view = { λ it. record { codes = it.codes; numbers = it.numbers.items } };

    ghost invariant = { λ it. AreGrouped it.codes it.numbers.items
        it.places.heads.items it.places.before.items };
}

impl Groups {
    /// No place.
    pub fn new(alloc: Global) -> Groups
        ensures { result.numbers ≡ [] }
    {
        Groups {
            codes: Codes::new(alloc),
            numbers: Vec::new(alloc),
            places: Slots {
                heads: Vec::new(alloc),
                before: Vec::new(alloc),
            },
        }
    }

    /// The codes of the groups, by number.
    pub fn codes(&self) -> &Codes
        ensures { result.now ≡ self.now.codes }
    {
        &self.codes
    }

    /// The number of the group of a place.
    pub fn number_of(&self, place: usize) -> usize
        requires { place < length self.now.numbers }
        ensures number { slice_get self.now.numbers place ≡ Some result }
        ensures low { result < length self.now.codes }
    {
        self.numbers[place] as usize
    }

    /// The last place of a group.
    pub fn last_of(&self, number: usize) -> Option<usize>
        requires { number < length self.now.codes }
        ensures { result ≡ last_place number self.now.numbers }
    {
        place_of(self.places.heads[number])
    }

    /// The last place before another in its group.
    pub fn before(&self, place: usize) -> Option<usize>
        requires { place < length self.now.numbers }
        ensures { IfSome (slice_get self.now.numbers place)
            (λ number. result ≡ last_place number (take place self.now.numbers)) }
    {
        place_of(self.places.before[place])
    }

    /// One place more in a group, at the end.
    pub fn push(&mut self, number: usize) -> Result<(), NoMemory>
        requires { number < length self.old.codes }
        ensures pushed { OnOk result (self.new ≡ with_place self.old number) }
        ensures unchanged { OnErr result (self.new ≡ self.old) }
    {
        let narrow = narrowed(number)?;
        self.numbers.reserve(1)?;
        self.places.push(number)?;
        self.numbers.push_reserved(narrow);
        Ok(())
    }

    /// One group more with a code, which has one place more, at the end.
    pub fn push_group(&mut self, code: u32) -> Result<(), NoMemory>
        ensures pushed { OnOk result (self.new ≡ with_group self.old code) }
        ensures fresh { (n : ℕ) → slice_get self.old.numbers n ≢ Some (length self.old.codes) }
        ensures kept { OnErr result (KeepsFront (length self.old.numbers) self.old self.new) }
    {
        self.numbers.reserve(1)?;
        let number = open(&mut self.codes, &mut self.places.heads, code)?;
        if self.places.push(number as usize).is_err() {
            leave(&mut self.codes, &mut self.places.heads, number as usize);
            return Err(NoMemory);
        }
        self.numbers.push_reserved(number);
        Ok(())
    }

    /// Takes the last place away, and its group where it has no other.
    pub fn pop(&mut self)
        ensures { KeepsFront (length self.old.numbers - 1) self.old self.new }
    {
        if let Some(number) = self.numbers.pop() {
            self.places.pop(number as usize);
            leave(&mut self.codes, &mut self.places.heads, number as usize);
        }
    }

    /// Keeps the first places alone, and their groups, in time of what it drops.
    pub fn truncate(&mut self, len: usize)
        ensures { KeepsFront len self.old self.new }
    {
        while self.numbers.len() > len {
            self.pop();
        }
    }
}

/// One group more with a code, and without a place.
fn open(codes: &mut Codes, heads: &mut Vec<u32>, code: u32) -> Result<u32, NoMemory>
    requires { length heads.old.items ≡ length codes.old }
    ensures number { IfOk result (λ number. number ≡ length codes.old) }
    ensures opened { OnOk result (codes.new ≡ codes.old ++ code ∷ []) }
    ensures kept { KeepsGroups codes.old codes.new heads.old.items heads.new.items }
{
    let number = narrowed(heads.len())?;
    heads.reserve(1)?;
    codes.push(code)?;
    heads.push_reserved(0);
    Ok(number)
}

/// Takes the last group away, where it has this number and no place.
fn leave(codes: &mut Codes, heads: &mut Vec<u32>, number: usize)
    requires { number < length heads.old.items }
    ensures { KeepsGroups codes.old codes.new heads.old.items heads.new.items }
{
    if number + 1 == heads.len() && heads[number] == 0 {
        heads.pop();
        codes.pop();
    }
}
