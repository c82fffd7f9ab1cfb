//! Where an update begins.

use std::alloc::Global;
use yd_fields::LentStruct;
use yd_ids::{Client, Id};
use yd_parts::NoMemory;
use yd_reading::StructTaker;

/// Takes an update, and notes where its first block begins.
#[derive(Drop)]
pub struct First {
    id: Option<Id>,
}

impl First {
    /// Nothing was taken.
    pub fn new() -> First {
        First { id: None }
    }

    /// Where the first block begins. Without a block it is the smallest id.
    pub fn id(&self) -> Id {
        let smallest = Id {
            client: Client(0),
            clock: 0,
        };
        self.id.unwrap_or(smallest)
    }
}

impl StructTaker for First {
    // An id to sort by, of which nothing has to be known.
    ghost took = { λ first sections. Unit {0} };

    fn begin(&mut self, _blocks: u64) -> Result<(), NoMemory> {
        Ok(())
    }

    fn begin_block(&mut self, id: Id, _structs: u64) -> Result<(), NoMemory> {
        if self.id.is_none() {
            self.id = Some(id);
        }
        Ok(())
    }

    fn take(&mut self, _alloc: Global, _id: Id, _entry: &LentStruct<'_>) -> Result<(), NoMemory> {
        Ok(())
    }
}
