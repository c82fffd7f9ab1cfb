//! Places in slots: each slot knows its last place, and each place the one before it in its slot.

ghost use Rattle.std.specs.Prelude.{◌≡◌, ◌<◌, ◌++◌, ◌∷◌, [], ℕ, List, None, length, replicate, All, IfOk, OnOk, OnErr};
ghost use Rattle.yd_names.specs.Slots.{bound_of, crowded, slot_of, AreSlots};

use std::alloc::Global;
use yd_ops::NoMemory;

/// What stands in place of the code of a name that a bisection finds.
pub(crate) const CROWDED: u32 = 4294967295;

/// Numbers of places, each one more than the place, and zero for none.
#[derive(Drop)]
pub struct Slots {
    /// The last place of each slot.
    pub heads: Vec<u32>,
    /// The place before each, in its slot.
    pub before: Vec<u32>,
}

impl Slots {
    /// So many slots without a place.
    pub fn new(alloc: Global, size: usize) -> Result<Slots, NoMemory>
        ensures { IfOk result (λ slots. (slots.heads.items ≡ replicate size 0)
            × (slots.before.items ≡ [])) }
    {
        Ok(Slots {
            heads: vec![in alloc; 0; size]?,
            before: Vec::new(alloc),
        })
    }

    /// One place more, which is the last of a slot. There is no memory for more than 4,294,967,295.
    pub fn push(&mut self, slot: usize) -> Result<(), NoMemory>
        requires { slot < length self.old.heads.items }
        ensures pushed { OnOk result ((slots : List ℕ) →
            AreSlots slots self.old.heads.items self.old.before.items →
            AreSlots (slots ++ slot ∷ []) self.new.heads.items self.new.before.items) }
        ensures size { length self.new.heads.items ≡ length self.old.heads.items }
        ensures unchanged { OnErr result ((self.new.heads.items ≡ self.old.heads.items)
            × (self.new.before.items ≡ self.old.before.items)) }
    {
        let place = self.before.len();
        if place >= 4294967295 {
            return Err(NoMemory);
        }
        self.before.push(self.heads[slot])?;
        self.heads[slot] = (place + 1) as u32;
        Ok(())
    }

    /// Takes the last place away, which is one of this slot.
    pub fn pop(&mut self, slot: usize)
        requires { slot < length self.old.heads.items }
        ensures popped { (slots : List ℕ) →
            AreSlots (slots ++ slot ∷ []) self.old.heads.items self.old.before.items →
            AreSlots slots self.new.heads.items self.new.before.items }
        ensures size { length self.new.heads.items ≡ length self.old.heads.items }
    {
        if let Some(number) = self.before.pop() {
            self.heads[slot] = number;
        }
    }
}

/// The number in fewer bits. There is no room for greater ones.
pub(crate) fn narrowed(number: usize) -> Result<u32, NoMemory>
    ensures { IfOk result (λ narrow. narrow ≡ number) }
{
    if number > 4294967295 {
        return Err(NoMemory);
    }
    Ok(number as u32)
}

/// The place that a number stands for.
pub(crate) fn place_of(number: u32) -> Option<usize>
    ensures { bound_of result ≡ number }
{
    if number == 0 {
        return None;
    }
    Some(number as usize - 1)
}

/// The slot of a code, where there are so many. The last is for `CROWDED` alone.
pub(crate) fn slot_of(size: usize, code: u32) -> usize
    requires { 0 < size }
    ensures slot { result ≡ slot_of size code }
    ensures low { result < size }
{
    if code == CROWDED {
        return size - 1;
    }
    let mixed = code.wrapping_mul(2654435769);
    (mixed as u128 * (size - 1) as u128 / 4294967296) as usize
}
