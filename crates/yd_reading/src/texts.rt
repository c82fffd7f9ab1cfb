//! Texts that are made of what is read: equal ones share their bytes.

ghost use Rattle.std.specs.Prelude.{◌≡◌, IfOk};

use std::alloc::Global;
use yd_any::Text;
use yd_parts::NoMemory;

/// How many texts are remembered at most.
const SLOTS: usize = 64;

/// Makes texts, and remembers some that it made: one equal to a remembered one shares its bytes.
#[derive(Drop)]
pub(crate) struct Texts {
    /// What each slot remembers. A slot comes with each text that is made, so few texts take few slots.
    slots: Vec<Option<Text>>,
}

impl Texts {
    /// Remembers no text.
    pub fn new(alloc: Global) -> Texts {
        Texts {
            slots: Vec::new(alloc),
        }
    }

    /// The allocator of the texts.
    pub fn alloc(&self) -> Global {
        *self.slots.allocator()
    }

    /// A text with these bytes. It takes time with their length, and no memory where an equal one is
    /// remembered.
    pub fn text(&mut self, text: &str) -> Result<Text, NoMemory>
        ensures { IfOk result (λ t. t ≡ text.now) }
    {
        let slot = slot_of(text);
        if slot < self.slots.len() {
            if let Some(known) = &self.slots[slot] {
                if known.as_str() == text {
                    return Ok(known.copy()?);
                }
            }
        }
        let made = Text::copy_of(self.alloc(), text)?;
        self.remember(slot, &made)?;
        Ok(made)
    }

    // The text takes the place of what its slot remembers, where the slot is there.
    fn remember(&mut self, slot: usize, text: &Text) -> Result<(), NoMemory> {
        if self.slots.len() < SLOTS {
            self.slots.push(None)?;
        }
        if slot < self.slots.len() {
            self.slots[slot] = Some(text.copy()?);
        }
        Ok(())
    }
}

// The slot of a text, by all its bytes.
fn slot_of(text: &str) -> usize {
    let mut sum: u32 = 0;
    for byte in text.as_bytes() {
        sum = sum.wrapping_add(*byte as u32).wrapping_mul(2654435769);
    }
    // The upper six bits: the multiplications mix these best.
    (sum >> 26) as usize
}
