//! A builder of grouped updates.

ghost use Rattle.std.specs.Prelude.{◌≡◌, IfOk, OnOk};
ghost use Rattle.yd_ops.specs.View.{update_value};
ghost use Rattle.yd_grouping.specs.Building.{nothing_built, with_next, with_pushed, finished};
ghost use Rattle.yd_building.specs.Builder.{group_value, some_group, some_blocks, built_of};

use crate::fault::NoMemory;
use crate::group::Group;
use crate::putting::{Blocks, all_blocks, put};
use std::alloc::Global;
use yd_ids::IdSet;
use yd_ops::Update;

/// A grouped update that is built from the front. The last group is kept apart, since the next one
/// may join it.
#[derive(Drop)]
pub struct Builder {
    alloc: Global,
    blocks: Option<Blocks>,
    last: Option<Group>,
}

impl Builder {
    /// Nothing is built yet.
    pub fn new(alloc: Global) -> Builder
        ensures { built_of result ≡ nothing_built }
    {
        Builder {
            alloc,
            blocks: None,
            last: None,
        }
    }

    /// Puts one more group behind what is built, in time of what it has. A builder that found no memory
    /// is left open: whoever meets that drops it. So it is with a clock past 2^64-1.
    pub fn push(&mut self, group: Group) -> Result<(), NoMemory>
        ensures pushed { OnOk result (built_of self.new
            ≡ with_pushed (built_of self.old) (group_value group)) }
    {
        let (blocks, last) = pushed(self.alloc, self.blocks.take(), self.last.take(), group)?;
        self.blocks = blocks;
        self.last = last;
        Ok(())
    }

    /// The update of all that was pushed, with these deletions.
    pub fn finish(self, deletes: IdSet) -> Result<Update, NoMemory>
        ensures { IfOk result (λ update. update_value update ≡ finished (built_of self) deletes) }
    {
        let Builder {
            alloc,
            blocks,
            last,
        } = self;
        let blocks = match last {
            None => blocks,
            Some(last) => Some(put(alloc, blocks, last)?),
        };
        let blocks = all_blocks(alloc, blocks)?;
        Ok(Update { blocks, deletes })
    }
}

/// Blocks and a last group, with one more group.
fn pushed(
    alloc: Global,
    blocks: Option<Blocks>,
    last: Option<Group>,
    group: Group,
) -> Result<(Option<Blocks>, Option<Group>), NoMemory>
    ensures blocks { IfOk result (λ new. some_blocks new.0
        ≡ (with_next (some_blocks blocks) (some_group last) (group_value group)).blocks) }
    ensures last { IfOk result (λ new. some_group new.1
        ≡ (with_next (some_blocks blocks) (some_group last) (group_value group)).last) }
{
    match last {
        None => Ok((blocks, Some(group))),
        Some(last) => {
            if last.joins(&group) {
                let mut both = last;
                both.append(group)?;
                return Ok((blocks, Some(both)));
            }
            let blocks = put(alloc, blocks, last)?;
            Ok((Some(blocks), Some(group)))
        }
    }
}
