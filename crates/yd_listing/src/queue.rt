//! Numbers in a queue, each once.

ghost use Rattle.std.specs.Prelude.{◌≡◌, [], slice_get, OnOk};
ghost use Rattle.yd_words.specs.Member.{IsIn, AreDistinct};
ghost use Rattle.yd_listing.specs.Closing.{Queues};

use std::alloc::Global;
use std::collections::BTreeSet;
use std::marker::Model;
use yd_ops::NoMemory;

/// Numbers in the order in which they came, each once.
#[derive(Drop)]
pub(crate) struct Queue {
    lists: Vec<usize>,
    seen: BTreeSet<usize>,
}

impl Model for Queue {
    ghost use Rattle.std.specs.Prelude.{ℕ, List};
    ghost use Rattle.yd_listing.specs.Closing.{IsQueue};

    ghost Value = { List ℕ };

    ghost view = { λ it. it.lists.items };

    ghost invariant = { λ it. IsQueue it.lists.items it.seen };
}

impl Queue {
    /// No number.
    pub(crate) fn new(alloc: Global) -> Queue
        ensures { result ≡ [] }
    {
        Queue {
            lists: Vec::new(alloc),
            seen: BTreeSet::new(alloc),
        }
    }

    /// The number at a place, and that no number stands there twice.
    pub(crate) fn get(&self, at: usize) -> Option<usize>
        ensures value { result ≡ slice_get self.now at }
        ensures distinct { AreDistinct self.now }
    {
        self.lists.get(at).copied()
    }

    /// A number more, unless it is there.
    pub(crate) fn add(&mut self, number: usize) -> Result<(), NoMemory>
        ensures queues { OnOk result (Queues (λ n. n ≡ number) self.old self.new) }
        ensures there { OnOk result (IsIn number self.new) }
    {
        self.lists.reserve(1)?;
        let is_new = self.seen.insert(number)?;
        if is_new {
            self.lists.push(number)?;
        }
        Ok(())
    }
}
