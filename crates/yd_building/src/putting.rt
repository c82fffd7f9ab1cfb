//! Blocks that grow at the back.

ghost use Rattle.std.specs.Prelude.{◌≡◌, map, IfOk};
ghost use Rattle.yd_ops.specs.View.{block_value};
ghost use Rattle.yd_grouping.specs.Building.{blocks_and};
ghost use Rattle.yd_building.specs.Builder.{group_value, blocks_value, some_blocks};

use crate::fault::NoMemory;
use crate::group::Group;
use crate::growing::Growing;
use std::alloc::Global;
use yd_ops::BlockList;

/// Blocks, of which the last may still grow.
#[derive(Drop)]
pub struct Blocks {
    /// Those that are done.
    pub done: BlockList,
    /// The last one.
    pub growing: Growing,
}

/// The blocks with one more group at the back.
pub fn put(alloc: Global, blocks: Option<Blocks>, group: Group) -> Result<Blocks, NoMemory>
    ensures { IfOk result (λ new. blocks_value new
        ≡ blocks_and (some_blocks blocks) (group_value group)) }
{
    match blocks {
        None => {
            let growing = Growing::begin(alloc, group)?;
            Ok(Blocks {
                done: BlockList::new(alloc),
                growing,
            })
        }
        Some(blocks) => put_behind(alloc, blocks, group),
    }
}

#[tactic(auto, using(crate::proofs::PuttingLemmas::put_same, crate::proofs::PuttingLemmas::put_other))]
fn put_behind(alloc: Global, blocks: Blocks, group: Group) -> Result<Blocks, NoMemory>
    ensures { IfOk result (λ new. blocks_value new
        ≡ blocks_and (blocks_value blocks) (group_value group)) }
{
    let Blocks { mut done, growing } = blocks;
    if growing.client().0 == group.id().client.0 {
        let growing = growing.extended(group)?;
        return Ok(Blocks { done, growing });
    }
    done.push(growing.into_block())?;
    let growing = Growing::begin(alloc, group)?;
    Ok(Blocks { done, growing })
}

/// All the blocks.
#[tactic(auto, using(crate::proofs::PuttingLemmas::put_all))]
pub fn all_blocks(alloc: Global, blocks: Option<Blocks>) -> Result<BlockList, NoMemory>
    ensures { IfOk result (λ list. map block_value list ≡ some_blocks blocks) }
{
    match blocks {
        None => Ok(BlockList::new(alloc)),
        Some(blocks) => {
            let Blocks { mut done, growing } = blocks;
            done.push(growing.into_block())?;
            Ok(done)
        }
    }
}
