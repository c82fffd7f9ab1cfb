//! What structs have, written in V1 as they come, while none joins the one before.

ghost use Rattle.std.specs.Prelude.{IfOk};
ghost use Rattle.std.specs.Bool.{OnTrue};
ghost use Rattle.yd_ops.specs.Valid.{IsValidUpdate};
ghost use Rattle.yd_grouping.specs.Building.{Built, finished, nothing_built, with_pushed};
ghost use Rattle.yd_grouping.specs.Groups.{Group};
ghost use Rattle.yd_fields.specs.Lent.{lent_struct};
ghost use Rattle.yd_reading.specs.Taking.{IsPlaced};
ghost use Rattle.yd_skimming.specs.BlockWriting.{IsGroupAt, IsWrittenAs};
ghost use Rattle.yd_skimming.specs.GroupWriting.{HasBuilt};

use crate::block_writing::BlockWriter;
use crate::tails::{Tail, joins, tail_of};
use std::alloc::Global;
use yd_fields::LentStruct;
use yd_ids::{Id, IdSet};
use yd_parts::NoMemory;

/// Writes what structs have, as a `yd_building::Builder` builds it, while none joins the one
/// before. Nothing is kept but the end of the last.
#[derive(Drop)]
pub struct GroupWriter {
    blocks: BlockWriter,
    tail: Option<Tail>,
}

impl GroupWriter {
    /// Nothing is written yet.
    pub fn new(alloc: Global) -> GroupWriter
        ensures { HasBuilt result nothing_built }
    {
        GroupWriter {
            blocks: BlockWriter::new(alloc),
            tail: None,
        }
    }

    /// Writes a run or gone units that begin at an id, and says so. What joins the struct before is
    /// not written.
    #[inline]
    pub fn put(&mut self, alloc: Global, id: Id, entry: &LentStruct<'_>) -> Result<bool, NoMemory>
        requires { IsPlaced id (lent_struct entry.now) }
        ensures { IfOk result (λ put. OnTrue put ((built : Built) (group : Group) →
            IsGroupAt id (lent_struct entry.now) group → HasBuilt self.old built →
            HasBuilt self.new (with_pushed built group))) }
    {
        if joins(&self.tail, id, entry) {
            return Ok(false);
        }
        self.blocks.put(alloc, id, entry)?;
        let end = Id {
            client: id.client,
            clock: id.clock + entry.len(),
        };
        self.tail = tail_of(end, entry);
        Ok(true)
    }

    /// The bytes of the update of all that was written, with these deletions.
    pub fn finish(self, alloc: Global, deletes: &IdSet) -> Result<Vec<u8>, NoMemory>
        ensures { IfOk result (λ bytes. (built : Built) → HasBuilt self built →
            IsValidUpdate (finished built deletes.now) →
            IsWrittenAs bytes.items (finished built deletes.now)) }
    {
        let bytes = self.blocks.finish(alloc, deletes)?;
        Ok(bytes)
    }
}
