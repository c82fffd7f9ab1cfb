//! Updates whose structs are handed on one after another while they are read.

ghost use Rattle.std.specs.Prelude.{◌<◌, ◌^◌, [], ◌∷◌, List, IfOk, OnOk};
ghost use Rattle.yd_ids.specs.Id.{IsClient, IsClock};
ghost use Rattle.yd_ops.specs.Value.{BlockValue};
ghost use Rattle.yd_parts.specs.Fault.{FailsAs};
ghost use Rattle.yd_parts.specs.Plan.{read_by, repeated};
ghost use Rattle.yd_fields.specs.Lent.{lent_struct};
ghost use Rattle.yd_fields.specs.StructPlan.{struct_plan};
ghost use Rattle.yd_fields.specs.UpdatePlan.{block_plan, blocks_step, structs_step, update_plan};
ghost use Rattle.yd_reading.specs.ReadView.{no_blocks, no_structs};
ghost use Rattle.yd_reading.specs.Taking.{IsPlaced, TakesBlock, TakesBlocks, TakesMore};
ghost use Rattle.yd_reading.specs.Taking.{TakesNextBlock, TakesStruct, TakesStructs, TakesUpdate};
ghost use Rattle.yd_reading.specs.Taking.{counted, headed, placed};

use crate::block_reading::{may_declare, still_declared};
use crate::delete_reading::read_deletes;
use crate::lent_reading::read_lent;
use crate::texts::Texts;
use std::alloc::Global;
use yd_fields::{FieldReader, LentStruct};
use yd_ids::{Client, Id, IdSet};
use yd_parts::{Cause, NoMemory, ReadError};

/// What takes an update while it is read: how many blocks it has, the head of each block, and each
/// struct, in this order. After want of memory it is left open what was taken.
pub trait StructTaker {
    ghost use Rattle.std.specs.Prelude.{List};
    ghost use Rattle.yd_reading.specs.Taking.{Section};

    /// These are the sections that it took, in their order.
    ghost took: { Self → List Section → Type 0 };

    /// Takes that an update of so many blocks begins.
    fn begin(&mut self, blocks: u64) -> Result<(), NoMemory>
        requires { blocks < 2 ^ 53 }
        ensures { OnOk result (TakesMore (took self.old) (took self.new) (counted blocks ∷ [])) };

    /// Takes that a block of so many structs begins at an id.
    fn begin_block(&mut self, id: Id, structs: u64) -> Result<(), NoMemory>
        requires client { IsClient id.client }
        requires clock { IsClock id.clock }
        requires structs { structs < 2 ^ 53 }
        ensures { OnOk result (TakesMore (took self.old) (took self.new)
            (headed id structs ∷ [])) };

    /// Takes a struct that begins at an id. Its text may be lent.
    fn take(&mut self, alloc: Global, id: Id, entry: &LentStruct<'_>) -> Result<(), NoMemory>
        requires { IsPlaced id (lent_struct entry.now) }
        ensures { OnOk result (TakesMore (took self.old) (took self.new)
            (placed id (lent_struct entry.now) ∷ [])) };
}

/// Reads an update as [`read_update`](crate::read_update) does, and hands its structs on one after
/// another, so that none is kept; it answers its deletions (Yjs 13, update decoders). What the taker
/// has after an error is left open.
#[tactic(auto, using(crate::proofs::UpdatePlanLemmas::read_update_plan))]
pub fn take_update<'a, R: FieldReader<'a>, T: StructTaker>(
    alloc: Global,
    reader: &mut R,
    taker: &mut T,
) -> Result<IdSet, ReadError>
    ensures took { IfOk result (λ deletes. TakesUpdate
        (read_by R.field_at R.spot_of (update_plan (R.most_of reader.old)) reader.old)
        reader.new deletes (T.took taker.old) (T.took taker.new)) }
    ensures fails { FailsAs result (read_by R.field_at R.spot_of
        (update_plan (R.most_of reader.old)) reader.old) }
{
    // Files lead to every reader: only proofs need to hear it.
    reader.reads_soundly();
    let most = reader.most_structs();
    let count = reader.get_number()?;
    taker.begin(count)?;
    let mut texts = Texts::new(alloc);
    take_blocks(&mut texts, reader, taker, count, most)?;
    let deletes = read_deletes(alloc, reader)?;
    Ok(deletes)
}

// So many blocks, with so many structs in all where there is a limit.
fn take_blocks<'a, R: FieldReader<'a>, T: StructTaker>(
    texts: &mut Texts,
    reader: &mut R,
    taker: &mut T,
    count: u64,
    most: Option<u64>,
) -> Result<(), ReadError>
    ensures took { OnOk result (TakesBlocks R.field_at R.spot_of count most
        reader.old reader.new (T.took taker.old) (T.took taker.new)) }
    ensures fails { FailsAs result (read_by R.field_at R.spot_of
        (repeated blocks_step count (no_blocks most)) reader.old) }
{
    let mut still = most;
    for _ in 0..count {
        still = take_next_block(texts, reader, taker, still)?;
    }
    Ok(())
}

// The next block, and how many structs may be declared still, where there is a limit.
#[tactic(auto, using(crate::proofs::BlockPlanLemmas::read_blocks_step))]
fn take_next_block<'a, R: FieldReader<'a>, T: StructTaker>(
    texts: &mut Texts,
    reader: &mut R,
    taker: &mut T,
    most: Option<u64>,
) -> Result<Option<u64>, ReadError>
    ensures took { IfOk result (TakesNextBlock R.field_at R.spot_of most
        reader.old reader.new (T.took taker.old) (T.took taker.new)) }
    ensures fails { (before : List BlockValue) → FailsAs result (read_by R.field_at R.spot_of
        (blocks_step (record { most = most; blocks = before })) reader.old) }
{
    reader.reads_soundly();
    let count = reader.get_number()?;
    if !may_declare(most, count) {
        return Err(ReadError::Fault {
            cause: Cause::TooManyStructs,
            spot: reader.spot(),
        });
    }
    take_block(texts, reader, taker, count)?;
    Ok(still_declared(most, count))
}

// A block of so many structs.
#[tactic(auto, using(crate::proofs::BlockPlanLemmas::read_block_plan))]
fn take_block<'a, R: FieldReader<'a>, T: StructTaker>(
    texts: &mut Texts,
    reader: &mut R,
    taker: &mut T,
    count: u64,
) -> Result<(), ReadError>
    requires { count < 2 ^ 53 }
    ensures took { OnOk result (TakesBlock R.field_at R.spot_of count
        reader.old reader.new (T.took taker.old) (T.took taker.new)) }
    ensures fails { FailsAs result (read_by R.field_at R.spot_of (block_plan count) reader.old) }
{
    reader.reads_soundly();
    let client = reader.get_client()?;
    let client = Client(client);
    let clock = reader.get_number()?;
    let id = Id { client, clock };
    taker.begin_block(id, count)?;
    take_structs(texts, reader, taker, id, count)?;
    Ok(())
}

// So many structs from an id on.
fn take_structs<'a, R: FieldReader<'a>, T: StructTaker>(
    texts: &mut Texts,
    reader: &mut R,
    taker: &mut T,
    id: Id,
    count: u64,
) -> Result<(), ReadError>
    requires { IsClient id.client }
    ensures took { OnOk result (TakesStructs R.field_at R.spot_of id count
        reader.old reader.new (T.took taker.old) (T.took taker.new)) }
    ensures fails { FailsAs result (read_by R.field_at R.spot_of
        (repeated (structs_step id.client) count (no_structs id.clock)) reader.old) }
{
    let client = id.client;
    let mut clock = id.clock;
    for _ in 0..count {
        clock = take_struct(texts, reader, taker, Id { client, clock })?;
    }
    Ok(())
}

// The struct at an id, and the clock behind it.
fn take_struct<'a, R: FieldReader<'a>, T: StructTaker>(
    texts: &mut Texts,
    reader: &mut R,
    taker: &mut T,
    id: Id,
) -> Result<u64, ReadError>
    requires { IsClient id.client }
    ensures took { IfOk result (TakesStruct R.field_at R.spot_of id
        reader.old reader.new (T.took taker.old) (T.took taker.new)) }
    ensures fails { FailsAs result (read_by R.field_at R.spot_of
        (struct_plan id.client id.clock) reader.old) }
{
    reader.reads_soundly();
    let entry = read_lent(texts, reader, id)?;
    taker.take(texts.alloc(), id, &entry)?;
    Ok(id.clock + entry.len())
}
