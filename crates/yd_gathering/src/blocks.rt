//! Blocks of which the last one grows.

ghost use Rattle.std.specs.Prelude.{◌≡◌, [], ◌++◌, map, IfOk, OnOk};
ghost use Rattle.yd_fields.specs.Lent.{lent_run, lent_struct};
ghost use Rattle.yd_ops.specs.Valid.{HasValidContent};
ghost use Rattle.yd_ops.specs.View.{block_value, run_value, struct_value};
ghost use Rattle.yd_reading.specs.Taking.{IsPlaced};
ghost use Rattle.yd_gathering.specs.Blocks.{IsSound, Puts, blocks_of, last_blocks};

use crate::growing::Growing;
use std::alloc::Global;
use std::mem;
use yd_fields::{LentRun, LentStruct};
use yd_ids::Id;
use yd_ops::{BlockList, Content, List, Run, Struct};
use yd_parts::NoMemory;
use yd_reading::StructTaker;
use yd_units::Units;

/// So many blocks are many: by then a log whose updates go on where others ended has few.
const MANY: usize = 64;

/// Blocks that take structs: one that begins where the last block ends goes into that, and any
/// other one begins a block.
#[derive(Drop)]
pub struct Blocks {
    // All but the last.
    done: BlockList,
    // The last, which grows.
    last: Option<Growing>,
}

impl Blocks {
    /// No block.
    pub fn new(alloc: Global) -> Blocks
        ensures none { blocks_of result ≡ [] }
        ensures sound { IsSound result }
    {
        Blocks {
            done: BlockList::new(alloc),
            last: None,
        }
    }

    /// Whether there are many. It says only what is worth while.
    pub fn are_many(&self) -> bool {
        self.done.as_slice().len() >= MANY
    }

    /// The blocks.
    pub fn into_list(self) -> Result<BlockList, yd_ops::NoMemory>
        ensures { IfOk result (λ list. map block_value list ≡ blocks_of self) }
    {
        let mut done = self.done;
        put_done(&mut done, self.last)?;
        Ok(done)
    }

    // Puts a struct that begins at the id into the last block, if that ends there, or else begins a
    // block. After want of memory the blocks are left open.
    fn put(&mut self, alloc: Global, id: Id, next: Struct) -> Result<(), yd_ops::NoMemory>
        requires { IsPlaced id (struct_value next) }
        ensures { OnOk result (Puts self.old self.new id (struct_value next)) }
    {
        if let Some(last) = &mut self.last {
            if last.ends_at(id) {
                last.push(next)?;
                return Ok(());
            }
        }
        self.put_alone(alloc, id, next)?;
        Ok(())
    }

    // Begins a block with a struct that begins at the id.
    fn put_alone(&mut self, alloc: Global, id: Id, first: Struct) -> Result<(), yd_ops::NoMemory>
        requires { IsPlaced id (struct_value first) }
        ensures { OnOk result (Puts self.old self.new id (struct_value first)) }
    {
        let growing = Growing::new(alloc, id, first);
        let last = mem::replace(&mut self.last, Some(growing));
        put_done(&mut self.done, last)?;
        Ok(())
    }
}

impl StructTaker for Blocks {
    ghost use Rattle.yd_gathering.specs.Blocks.{HasSections};

    ghost took = { HasSections };

    fn begin(&mut self, _blocks: u64) -> Result<(), NoMemory> {
        Ok(())
    }

    fn begin_block(&mut self, _id: Id, _structs: u64) -> Result<(), NoMemory> {
        Ok(())
    }

    fn take(&mut self, alloc: Global, id: Id, entry: &LentStruct<'_>) -> Result<(), NoMemory> {
        let Ok(next) = made(alloc, entry) else {
            return Err(NoMemory);
        };
        let Ok(()) = self.put(alloc, id, next) else {
            return Err(NoMemory);
        };
        Ok(())
    }
}

// Puts a block that grew, if there is one, behind those that are done.
fn put_done(done: &mut BlockList, last: Option<Growing>) -> Result<(), yd_ops::NoMemory>
    ensures { OnOk result
        (map block_value done.new ≡ map block_value done.old ++ last_blocks last) }
{
    let Some(last) = last else {
        return Ok(());
    };
    let block = last.into_block()?;
    done.push(block)?;
    Ok(())
}

// The struct in memory of its own.
fn made(alloc: Global, entry: &LentStruct<'_>) -> Result<Struct, yd_ops::NoMemory>
    requires { HasValidContent (lent_struct entry.now) }
    ensures { IfOk result (λ item. struct_value item ≡ lent_struct entry.now) }
{
    match entry {
        LentStruct::Text(run) => {
            let run = made_run(alloc, run)?;
            Ok(Struct::Item(run))
        }
        LentStruct::Made(entry) => {
            let item = entry.copy()?;
            Ok(item)
        }
    }
}

// The run in memory of its own.
fn made_run(alloc: Global, run: &LentRun<'_>) -> Result<Run, yd_ops::NoMemory>
    ensures { IfOk result (λ made. run_value made ≡ lent_run run.now) }
{
    let list = copied(&run.list)?;
    let units = Units::from_text(alloc, run.text.as_str())?;
    Ok(Run {
        id: run.id,
        left: run.left,
        right: run.right,
        list,
        content: Content::Str(units),
    })
}

// The list, if there is one, in memory of its own.
fn copied(list: &Option<List>) -> Result<Option<List>, yd_ops::NoMemory>
    ensures { IfOk result (λ copy. copy ≡ list.now) }
{
    let Some(list) = list else {
        return Ok(None);
    };
    let copy = list.copy()?;
    Ok(Some(copy))
}
