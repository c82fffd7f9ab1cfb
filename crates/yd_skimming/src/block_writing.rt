//! The blocks of an update, written in V1 as they come.

ghost use Rattle.std.specs.Prelude.{◌≡◌, ◌<◌, ◌^◌, ◌+◌, [], ◌∷◌, List, length, IfOk, OnOk};
ghost use Rattle.yd_ids.specs.Id.{IsId};
ghost use Rattle.yd_ops.specs.Valid.{IsValidUpdate};
ghost use Rattle.yd_ops.specs.Value.{BlockValue, StructValue, skip};
ghost use Rattle.yd_grouping.specs.Building.{blocks_and};
ghost use Rattle.yd_grouping.specs.Grouped.{with_gap};
ghost use Rattle.yd_grouping.specs.Groups.{Group};
ghost use Rattle.yd_fields.specs.Lent.{lent_struct};
ghost use Rattle.yd_fields.specs.UpdateFields.{fields_of_block, fields_of_struct, fields_of_structs};
ghost use Rattle.yd_fields.specs.Writes.{IsWritableStruct};
ghost use Rattle.yd_reading.specs.Taking.{IsPlaced};
ghost use Rattle.yd_skimming.specs.BlockWriting.{Appends, Holds, IsGroupAt, IsWrittenAs};
ghost use Rattle.yd_skimming.specs.BlockWriting.{GrowsBy, HasWritten, IsLastBlock, IsReadyFor};
ghost use Rattle.yd_skimming.specs.BlockWriting.{block_at, fields_of_body, fields_of_counted};

use std::alloc::Global;
use yd_fields::{FieldWriter, LentStruct, write_deletes, write_lent};
use yd_ids::{Client, Id, IdSet};
use yd_parts::{NoMemory, counted};
use yd_v1::V1Writer;

/// The info byte of a skip.
const INFO_SKIP: u8 = 10;

/// Writes the blocks of an update in V1, struct by struct, as they come (Yjs 13, UpdateEncoderV1
/// and LazyStructWriter). How many structs a block has stands in front of them, so the last block
/// is written apart until the next one begins.
#[derive(Drop)]
pub struct BlockWriter {
    done: V1Writer,
    count: usize,
    last: Option<LastBlock>,
    body: V1Writer,
}

/// What is known of the last block: whose it is, the clock behind it, and how many structs it has.
#[derive(Clone, Copy)]
struct LastBlock {
    client: Client,
    end: u64,
    count: usize,
}

impl BlockWriter {
    /// No block yet.
    pub fn new(alloc: Global) -> BlockWriter
        ensures { HasWritten result [] }
    {
        BlockWriter {
            done: V1Writer::new(alloc),
            count: 0,
            last: None,
            body: V1Writer::new(alloc),
        }
    }

    /// Writes a run or gone units that begin at an id. They go into the last block where that is
    /// their client's, behind a skip where clocks are left out, and else into a new block. What is
    /// written after want of memory is left open.
    #[inline]
    pub fn put(&mut self, alloc: Global, id: Id, entry: &LentStruct<'_>) -> Result<(), NoMemory>
        requires { IsPlaced id (lent_struct entry.now) }
        ensures { OnOk result ((blocks : List BlockValue) (group : Group) →
            IsGroupAt id (lent_struct entry.now) group → HasWritten self.old blocks →
            HasWritten self.new (blocks_and blocks group)) }
    {
        let last = self.last_for(id)?;
        let gap = id.clock.max(last.end) - last.end;
        let grown = last.grown(gap, entry.len())?;
        put_behind(alloc, gap, entry, &mut self.body)?;
        self.last = Some(grown);
        Ok(())
    }

    /// The bytes of the update that has the blocks which were written and these deletions (Yjs 13,
    /// writeDeleteSet). A count of 2^53 or more finds no memory (own).
    pub fn finish(self, alloc: Global, deletes: &IdSet) -> Result<Vec<u8>, NoMemory>
        ensures { IfOk result (λ bytes. (blocks : List BlockValue) → HasWritten self blocks →
            IsValidUpdate (record { blocks = blocks; deletes = deletes.now }) →
            IsWrittenAs bytes.items (record { blocks = blocks; deletes = deletes.now })) }
    {
        let mut all = V1Writer::new(alloc);
        self.write_all(&mut all)?;
        write_deletes(alloc, deletes, &mut all)?;
        let bytes = all.finish()?;
        Ok(bytes)
    }

    // The last block, if it is the client's, or else a new one that begins at the id.
    #[inline]
    fn last_for(&mut self, id: Id) -> Result<LastBlock, NoMemory>
        requires { IsId id }
        ensures { IfOk result (λ last. (blocks : List BlockValue) → HasWritten self.old blocks →
            IsReadyFor id blocks self.new last) }
    {
        if let Some(last) = self.last {
            if last.client.0 == id.client.0 {
                return Ok(last);
            }
            write_block(last.count, &self.body, &mut self.done)?;
            self.count = one_more(self.count)?;
        }
        let last = begin_block(id, &mut self.body)?;
        Ok(last)
    }

    // How many blocks there are, and these.
    fn write_all(&self, all: &mut V1Writer) -> Result<(), NoMemory>
        ensures { OnOk result ((blocks : List BlockValue) → HasWritten self.now blocks →
            Appends (fields_of_counted blocks) all.old all.new) }
    {
        let last = match self.last {
            None => {
                all.put_number(0)?;
                return Ok(());
            }
            Some(last) => last,
        };
        let count = counted(one_more(self.count)?)?;
        all.put_number(count)?;
        all.append(&self.done)?;
        write_block(last.count, &self.body, all)?;
        Ok(())
    }
}

impl LastBlock {
    // What is known with one more struct behind a gap, which takes so many clocks.
    fn grown(self, gap: u64, len: u64) -> Result<LastBlock, NoMemory>
        ensures { IfOk result (λ grown. GrowsBy gap len self grown) }
    {
        let begins = match self.end.checked_add(gap) {
            None => return Err(NoMemory),
            Some(begins) => begins,
        };
        let end = match begins.checked_add(len) {
            None => return Err(NoMemory),
            Some(end) => end,
        };
        let count = match self.count.checked_add(structs_behind(gap)) {
            None => return Err(NoMemory),
            Some(count) => count,
        };
        Ok(LastBlock {
            client: self.client,
            end,
            count,
        })
    }
}

// How many structs a struct is behind a gap: a skip comes before it, if there is one.
fn structs_behind(gap: u64) -> usize
    ensures { (s : StructValue) → result ≡ length (with_gap gap (s ∷ [])) }
{
    if 0 < gap { 2 } else { 1 }
}

// Writes a struct behind a gap.
fn put_behind(
    alloc: Global,
    gap: u64,
    entry: &LentStruct<'_>,
    body: &mut V1Writer,
) -> Result<(), NoMemory>
    requires gap { gap < 2 ^ 53 }
    requires entry { IsWritableStruct (lent_struct entry.now) }
    ensures { OnOk result (Appends (fields_of_structs (with_gap gap (lent_struct entry.now ∷ [])))
        body.old body.new) }
{
    if 0 < gap {
        put_skip(gap, body)?;
    }
    write_lent(alloc, entry, body)?;
    Ok(())
}

// Writes a skip of so many clocks.
fn put_skip(count: u64, body: &mut V1Writer) -> Result<(), NoMemory>
    requires { count < 2 ^ 53 }
    ensures { OnOk result (Appends (fields_of_struct (skip count)) body.old body.new) }
{
    body.put_info(INFO_SKIP)?;
    body.put_number(count)?;
    Ok(())
}

// Begins a block at an id, in the memory of the one before.
fn begin_block(id: Id, body: &mut V1Writer) -> Result<LastBlock, NoMemory>
    requires { IsId id }
    ensures { IfOk result (λ last. IsLastBlock last body.new (block_at id)) }
{
    body.clear();
    body.put_client(id.client.0)?;
    body.put_number(id.clock)?;
    Ok(LastBlock {
        client: id.client,
        end: id.clock,
        count: 0,
    })
}

// Writes a block of so many structs, whose other fields are written.
fn write_block(count: usize, body: &V1Writer, writer: &mut V1Writer) -> Result<(), NoMemory>
    ensures { OnOk result ((block : BlockValue) → count ≡ length block.structs →
        Holds (fields_of_body block) body.now →
        Appends (fields_of_block block) writer.old writer.new) }
{
    let count = counted(count)?;
    writer.put_number(count)?;
    writer.append(body)?;
    Ok(())
}

// One more than a count.
fn one_more(count: usize) -> Result<usize, NoMemory>
    ensures { IfOk result (λ more. more ≡ count + 1) }
{
    match count.checked_add(1) {
        None => Err(NoMemory),
        Some(more) => Ok(more),
    }
}
