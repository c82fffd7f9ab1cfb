//! Runs that go on where the one before them ends are joined to it.

ghost use Rattle.std.specs.Prelude.{◌≡◌, [], ◌∷◌, true, map, IfOk, OnOk};
ghost use Rattle.yd_ops.specs.Valid.{IsValidUpdate};
ghost use Rattle.yd_ops.specs.View.{struct_value, block_value, update_value};
ghost use Rattle.yd_ops.specs.Operation.{operations_of};
ghost use Rattle.yd_ops.specs.Received.{received_set};
ghost use Rattle.yd_merge.specs.Joining.{struct_joins, joined_struct, structs_in, IsPut};
ghost use Rattle.yd_merge.specs.Joining.{SaySame, SaysSame, BlocksSaySame};

use crate::fault::NoMemory;
use std::alloc::Global;
use std::mem;
use yd_ops::{Block, BlockList, Struct, StructList, Update};

/// An update that says the same, where each run that goes on where the one before it ends is one with
/// that, and so are gone units. It takes the time of the structs, and memory for those of a block
/// where some are joined. Structs are moved, and of a run that is joined its content is copied.
pub fn join_runs(alloc: Global, update: Update) -> Result<Update, NoMemory>
    requires { IsValidUpdate (update_value update) }
    ensures operations { IfOk result (λ joined.
        operations_of (update_value joined) ≡ operations_of (update_value update)) }
    ensures received { IfOk result (λ joined. received_set (update_value joined ∷ [])
        ≡ received_set (update_value update ∷ [])) }
    ensures valid { IfOk result (λ joined. IsValidUpdate (update_value joined)) }
{
    let Update { blocks, deletes } = update;
    let blocks = join_blocks(alloc, blocks)?;
    Ok(Update { blocks, deletes })
}

/// Joins the structs of each block.
fn join_blocks(alloc: Global, blocks: BlockList) -> Result<BlockList, NoMemory>
    ensures { IfOk result (λ joined.
        BlocksSaySame (map block_value blocks) (map block_value joined)) }
{
    let mut joined = BlockList::new(alloc);
    let mut left = blocks.into_vec().into_iter();
    while let Some(block) = left.next() {
        joined.push(join_block(alloc, block)?)?;
    }
    Ok(joined)
}

/// Joins the structs of a block. One where none are joined stays as it is.
fn join_block(alloc: Global, block: Block) -> Result<Block, NoMemory>
    ensures { IfOk result (λ joined. SaysSame (block_value block) (block_value joined)) }
{
    if !has_joins(block.structs.as_slice()) {
        return Ok(block);
    }
    let Block {
        client,
        clock,
        structs,
    } = block;
    let structs = join_structs(alloc, structs)?;
    Ok(Block {
        client,
        clock,
        structs,
    })
}

/// One of the structs goes on with the next one. This chooses the faster way alone.
fn has_joins(structs: &[Struct]) -> bool {
    for at in 1..structs.len() {
        if joins(&structs[at - 1], &structs[at]) {
            return true;
        }
    }
    false
}

/// Joins each struct to the one before it, where that goes on with it.
fn join_structs(alloc: Global, structs: StructList) -> Result<StructList, NoMemory>
    ensures { IfOk result (λ joined.
        SaySame (map struct_value structs) (map struct_value joined)) }
{
    let mut done = StructList::new(alloc);
    let mut left = structs.into_vec().into_iter();
    let Some(mut last) = left.next() else {
        return Ok(done);
    };
    while let Some(next) = left.next() {
        put_behind(&mut done, &mut last, next)?;
    }
    done.push(last)?;
    Ok(done)
}

/// Puts a struct behind the others, or joins it to the last one.
fn put_behind(done: &mut StructList, last: &mut Struct, next: Struct) -> Result<(), NoMemory>
    ensures { OnOk result (IsPut (structs_in done.old last.old) (struct_value next)
        (structs_in done.new last.new)) }
{
    if joins(last, &next) {
        append(last, next)?;
        return Ok(());
    }
    let before = mem::replace(last, next);
    done.push(before)?;
    Ok(())
}

/// The first struct goes on with the other.
fn joins(last: &Struct, next: &Struct) -> bool
    ensures { result ≡ struct_joins (struct_value last.now) (struct_value next.now) }
{
    match (last, next) {
        (Struct::Item(run), Struct::Item(next)) => run.joins(next),
        (Struct::Gone(_), Struct::Gone(_)) => true,
        _ => false,
    }
}

/// Puts the units of the next struct behind those of the last.
fn append(last: &mut Struct, next: Struct) -> Result<(), NoMemory>
    requires { struct_joins (struct_value last.old) (struct_value next) ≡ true }
    ensures { OnOk result (struct_value last.new
        ≡ joined_struct (struct_value last.old) (struct_value next)) }
{
    match (last, next) {
        (Struct::Item(run), Struct::Item(next)) => {
            run.append(next)?;
            Ok(())
        }
        (Struct::Gone(count), Struct::Gone(more)) => match count.checked_add(more) {
            None => Err(NoMemory),
            Some(both) => {
                *count = both;
                Ok(())
            }
        },
        // Other structs do not join.
        _ => unreachable!(),
    }
}
