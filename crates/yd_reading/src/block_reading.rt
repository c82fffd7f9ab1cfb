//! Reading blocks.

ghost use Rattle.std.specs.Prelude.{◌≡◌, ◌<◌, ◌^◌, Ok, OnOk};
ghost use Rattle.yd_ops.specs.View.{block_value};
ghost use Rattle.yd_parts.specs.Fault.{FailsAs, Gives};
ghost use Rattle.yd_parts.specs.Plan.{read_by, repeated};
ghost use Rattle.yd_reading.specs.ReadView.{blocks_value, no_blocks, no_structs, structs_value};
ghost use Rattle.yd_fields.specs.UpdatePlan.{block_plan, blocks_step, may_declare, still_declared, structs_step};

use crate::struct_reading::read_struct;
use crate::texts::Texts;
use yd_fields::FieldReader;
use yd_ids::{Client, Id};
use yd_ops::{Block, BlockList, StructList};
use yd_parts::{Cause, ReadError};

/// Structs that were read, and the clock behind them.
#[derive(Drop)]
pub struct StructsRead {
    clock: u64,
    structs: StructList,
}

/// Blocks that were read, and how many structs may be declared still, where there is a limit.
#[derive(Drop)]
pub struct BlocksRead {
    pub most: Option<u64>,
    pub blocks: BlockList,
}

/// So many blocks, with so many structs in all where there is a limit.
pub fn read_blocks<'a, R: FieldReader<'a>>(
    texts: &mut Texts,
    reader: &mut R,
    count: u64,
    most: Option<u64>,
) -> Result<BlocksRead, ReadError>
    ensures { Gives blocks_value result reader.new (read_by R.field_at R.spot_of
        (repeated blocks_step count (no_blocks most)) reader.old) }
{
    let mut read = BlocksRead {
        most,
        blocks: BlockList::new(texts.alloc()),
    };
    for _ in 0..count {
        read_next_block(texts, reader, &mut read)?;
    }
    Ok(read)
}

#[tactic(auto, using(crate::proofs::BlockPlanLemmas::next_block))]
fn read_next_block<'a, R: FieldReader<'a>>(
    texts: &mut Texts,
    reader: &mut R,
    read: &mut BlocksRead,
) -> Result<(), ReadError>
    ensures taken { OnOk result (read_by R.field_at R.spot_of
        (blocks_step (blocks_value read.old)) reader.old ≡ Ok (blocks_value read.new, reader.new)) }
    ensures fails { FailsAs result (read_by R.field_at R.spot_of
        (blocks_step (blocks_value read.old)) reader.old) }
{
    let count = reader.get_number()?;
    if !may_declare(read.most, count) {
        return Err(ReadError::Fault {
            cause: Cause::TooManyStructs,
            spot: reader.spot(),
        });
    }
    let block = read_block(texts, reader, count)?;
    read.most = still_declared(read.most, count);
    read.blocks.push(block)?;
    Ok(())
}

/// So many structs may be declared, where there is a limit.
pub fn may_declare(most: Option<u64>, count: u64) -> bool
    ensures { result ≡ may_declare most count }
{
    match most {
        None => true,
        Some(most) => count <= most,
    }
}

/// How many structs may be declared still, where there is a limit.
pub fn still_declared(most: Option<u64>, count: u64) -> Option<u64>
    ensures { result ≡ still_declared most count }
{
    match most {
        None => None,
        Some(most) => Some(most.saturating_sub(count)),
    }
}

#[tactic(auto, using(crate::proofs::BlockPlanLemmas::read_block_plan))]
fn read_block<'a, R: FieldReader<'a>>(
    texts: &mut Texts,
    reader: &mut R,
    count: u64,
) -> Result<Block, ReadError>
    ensures { Gives block_value result reader.new
        (read_by R.field_at R.spot_of (block_plan count) reader.old) }
{
    let client = reader.get_client()?;
    let client = Client(client);
    let clock = reader.get_number()?;
    let read = read_structs(texts, reader, Id { client, clock }, count)?;
    Ok(Block {
        client,
        clock,
        structs: read.structs,
    })
}

fn read_structs<'a, R: FieldReader<'a>>(
    texts: &mut Texts,
    reader: &mut R,
    id: Id,
    count: u64,
) -> Result<StructsRead, ReadError>
    ensures { Gives structs_value result reader.new (read_by R.field_at R.spot_of
        (repeated (structs_step id.client) count (no_structs id.clock)) reader.old) }
{
    let mut read = StructsRead {
        clock: id.clock,
        structs: StructList::new(texts.alloc()),
    };
    for _ in 0..count {
        read_next_struct(texts, reader, id.client, &mut read)?;
    }
    Ok(read)
}

#[tactic(auto, using(crate::proofs::BlockPlanLemmas::next_struct))]
fn read_next_struct<'a, R: FieldReader<'a>>(
    texts: &mut Texts,
    reader: &mut R,
    client: Client,
    read: &mut StructsRead,
) -> Result<(), ReadError>
    ensures taken { OnOk result (read_by R.field_at R.spot_of
        (structs_step client (structs_value read.old)) reader.old
        ≡ Ok (structs_value read.new, reader.new)) }
    ensures fails { FailsAs result (read_by R.field_at R.spot_of
        (structs_step client (structs_value read.old)) reader.old) }
{
    let clock = read.clock;
    let next = read_struct(texts, reader, Id { client, clock })?;
    let end = clock + next.len();
    read.structs.push(next)?;
    read.clock = end;
    Ok(())
}
