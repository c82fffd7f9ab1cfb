//! A list of codes that knows where each of them stands.

ghost use Rattle.std.specs.Prelude.{◌≡◌, ◌<◌, ◌-◌, ◌++◌, ◌∷◌, [], ℕ, map, length, take, slice_get, IfSome, IfOk, OnOk, OnErr};
ghost use Rattle.yd_names.specs.Codes.{last_place};
ghost use Rattle.yd_names.specs.Slots.{slot_of, AreSlots, AreFound, IsSearched};

use crate::slots::{Slots, place_of, slot_of};
use std::alloc::Global;
use std::marker::Model;
use yd_ops::NoMemory;

/// How many places a search walks over in a slot. Few slots of many have more than a few, where no
/// one sought names for it.
const LONGEST: usize = 32;

/// Codes in a row. A code may stand there more than once.
#[derive(Drop)]
pub struct Codes {
    codes: Vec<u32>,
    slots: Slots,
}

impl Model for Codes {
    ghost use Rattle.std.specs.Prelude.{ℕ, List};
    ghost use Rattle.yd_names.specs.Slots.{AreFound};

    ghost Value = { List ℕ };

    ghost view = { λ it. it.codes.items };

    ghost invariant = { λ it. AreFound it.codes.items it.slots.heads.items it.slots.before.items };
}

impl Codes {
    /// No code.
    pub fn new(alloc: Global) -> Codes
        ensures { result ≡ [] }
    {
        Codes {
            codes: Vec::new(alloc),
            slots: Slots {
                heads: Vec::new(alloc),
                before: Vec::new(alloc),
            },
        }
    }

    /// The last place of a code.
    pub fn last_of(&self, code: u32) -> Option<usize>
        ensures { result ≡ last_place code self.now }
    {
        let size = self.slots.heads.len();
        if size == 0 {
            return None;
        }
        let from = self.slots.heads[slot_of(size, code)];
        search(&self.codes, &self.slots.before, code, from)
    }

    /// The last place before another with the same code.
    pub fn before(&self, place: usize) -> Option<usize>
        requires { place < length self.now }
        ensures { IfSome (slice_get self.now place)
            (λ code. result ≡ last_place code (take place self.now)) }
    {
        let code = self.codes[place];
        let from = self.slots.before[place];
        search(&self.codes, &self.slots.before, code, from)
    }

    /// One code more, at the end.
    pub fn push(&mut self, code: u32) -> Result<(), NoMemory>
        ensures pushed { OnOk result (self.new ≡ self.old ++ code ∷ []) }
        ensures unchanged { OnErr result (self.new ≡ self.old) }
    {
        self.codes.reserve(1)?;
        make_room(&self.codes, &mut self.slots)?;
        let slot = slot_of(self.slots.heads.len(), code);
        self.slots.push(slot)?;
        self.codes.push_reserved(code);
        Ok(())
    }

    /// Takes the last code away.
    pub fn pop(&mut self)
        ensures { self.new ≡ take (length self.old - 1) self.old }
    {
        let size = self.slots.heads.len();
        if let Some(code) = self.codes.pop() {
            self.slots.pop(slot_of(size, code));
        }
    }

    /// Keeps the first codes alone, in time of what it drops.
    pub fn truncate(&mut self, len: usize)
        ensures { self.new ≡ take len self.old }
    {
        while self.codes.len() > len {
            self.pop();
        }
    }

    /// The slot of a code has as many places as a search is to walk over. What goes elsewhere then
    /// is for speed alone, so no clause says which answer it is.
    pub fn is_long(&self, code: u32) -> bool {
        let size = self.slots.heads.len();
        if size == 0 {
            return false;
        }
        has_so_many(&self.slots.before, self.slots.heads[slot_of(size, code)])
    }
}

/// From a number of a place on there are as many places in its slot as a search is to walk over.
fn has_so_many(before: &[u32], from: u32) -> bool {
    let mut next = from;
    for _ in 0..LONGEST {
        let Some(place) = place_of(next) else {
            return false;
        };
        if place >= before.len() {
            return false;
        }
        next = before[place];
    }
    true
}

/// The last place of a code, where the number of the last one that can be it is known.
fn search(codes: &[u32], before: &[u32], code: u32, from: u32) -> Option<usize>
    requires { IsSearched codes.now before.now code from }
    ensures { (it : IsSearched codes.now before.now code from) →
        result ≡ last_place code (take it.top codes.now) }
{
    let mut next = place_of(from);
    while let Some(place) = next {
        if codes[place] == code {
            return Some(place);
        }
        next = place_of(before[place]);
    }
    None
}

/// More slots than codes, where there were as many or more.
fn make_room(codes: &[u32], slots: &mut Slots) -> Result<(), NoMemory>
    requires { AreFound codes.now slots.old.heads.items slots.old.before.items }
    ensures found { AreFound codes.now slots.new.heads.items slots.new.before.items }
    ensures room { OnOk result (length codes.now < length slots.new.heads.items) }
{
    if codes.len() < slots.heads.len() {
        return Ok(());
    }
    let alloc = *slots.heads.allocator();
    // There are twice as many, and one for `CROWDED`.
    *slots = in_slots(alloc, codes, codes.len().max(5) * 2 - 1)?;
    Ok(())
}

/// Codes in so many slots.
fn in_slots(alloc: Global, codes: &[u32], size: usize) -> Result<Slots, NoMemory>
    requires { 0 < size }
    ensures slots { IfOk result (λ slots.
        AreSlots (map (slot_of size) codes.now) slots.heads.items slots.before.items) }
    ensures size { IfOk result (λ slots. length slots.heads.items ≡ size) }
{
    let mut slots = Slots::new(alloc, size)?;
    slots.before.reserve(size)?;
    for code in codes {
        slots.push(slot_of(size, *code))?;
    }
    Ok(slots)
}
