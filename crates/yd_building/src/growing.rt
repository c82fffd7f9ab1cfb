//! A block that may still grow.

ghost use Rattle.std.specs.Prelude.{◌≡◌, ◌∷◌, [], ◌++◌, map, IfOk, OnOk};
ghost use Rattle.yd_ops.specs.View.{block_value, struct_value};
ghost use Rattle.yd_grouping.specs.Grouped.{block_of, with_gap};
ghost use Rattle.yd_grouping.specs.Building.{block_and};
ghost use Rattle.yd_building.specs.Builder.{group_value};

use crate::fault::NoMemory;
use crate::group::Group;
use std::alloc::Global;
use std::marker::Model;
use yd_ids::Client;
use yd_ops::{Block, Struct, StructList};

/// A block, with the clock behind it.
#[derive(Drop)]
pub struct Growing {
    block: Block,
    end: u64,
}

impl Model for Growing {
    ghost use Rattle.yd_ops.specs.declared.updates.Block.{Block};
    ghost use Rattle.yd_ops.specs.View.{block_value};
    ghost use Rattle.yd_grouping.specs.Building.{block_end};
    ghost use Rattle.std.specs.Prelude.{◌≡◌};
    ghost use Rattle.yd_any.specs.contracts.any_value.AnyList as any_list;
    ghost use Rattle.yd_any.specs.contracts.json_value.Json as json;
    ghost use Rattle.std.specs.Coded.{codes};

    ghost Value = { Block };

    ghost coded = { Prim.hlevel (codes, json.the_row.coded, any_list.the_row.coded) };

    ghost view = { λ it. it.block };

    ghost invariant = { λ it. it.end ≡ block_end (block_value it.block) };
}

impl Growing {
    /// A block of this group alone.
    pub fn begin(alloc: Global, group: Group) -> Result<Growing, NoMemory>
        ensures { IfOk result (λ block. block_value block ≡ block_of (group_value group)) }
    {
        let id = group.id();
        let end = match id.clock.checked_add(group.len()) {
            None => return Err(NoMemory),
            Some(end) => end,
        };
        let mut structs = StructList::new(alloc);
        structs.push(group.into_struct())?;
        let block = Block {
            client: id.client,
            clock: id.clock,
            structs,
        };
        Ok(Growing { block, end })
    }

    /// Whose block it is.
    pub fn client(&self) -> Client
        ensures { result ≡ self.now.client }
    {
        self.block.client
    }

    /// The block with one more group of its client at the back.
    pub fn extended(self, group: Group) -> Result<Growing, NoMemory>
        ensures { IfOk result (λ block. block_value block
            ≡ block_and (block_value self) (group_value group)) }
    {
        let id = group.id();
        let begins = id.clock.max(self.end);
        let end = match begins.checked_add(group.len()) {
            None => return Err(NoMemory),
            Some(end) => end,
        };
        let gap = begins - self.end;
        let mut block = self.block;
        push_behind(&mut block.structs, gap, group.into_struct())?;
        Ok(Growing { block, end })
    }

    /// The block.
    pub fn into_block(self) -> Block
        ensures { result ≡ self }
    {
        self.block
    }
}

/// Appends a struct behind a gap.
#[tactic(auto, using(crate::proofs::PuttingLemmas::put_struct, crate::proofs::PuttingLemmas::put_gap))]
fn push_behind(structs: &mut StructList, gap: u64, item: Struct) -> Result<(), NoMemory>
    ensures { OnOk result (map struct_value structs.new
        ≡ map struct_value structs.old ++ with_gap gap (struct_value item ∷ [])) }
{
    if 0 < gap {
        structs.push(Struct::Skip(gap))?;
        structs.push(item)?;
        return Ok(());
    }
    structs.push(item)?;
    Ok(())
}
