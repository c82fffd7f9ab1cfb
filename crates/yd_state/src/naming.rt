//! What an update deletes by name.

ghost use Rattle.std.specs.Prelude.{◌≡◌, ◌+◌, map, IfOk, OnOk};
ghost use Rattle.yd_ids.specs.Id.{IsClient, IsClock};
ghost use Rattle.yd_ids.specs.Set.{union_of};
ghost use Rattle.yd_ops.specs.Valid.{IsStructAt, IsValidBlock, IsValidUpdate};
ghost use Rattle.yd_ops.specs.Value.{len_of, clocks_of};
ghost use Rattle.yd_ops.specs.View.{content_value, struct_value, block_value, update_value};
ghost use Rattle.yd_ops.specs.Deletes.{deletes_of, content_spans, struct_spans, structs_spans};

use crate::fault::NoMemory;
use yd_ids::{Client, Id, IdSet, Span};
use yd_ops::{Block, Content, Run, Struct, Update};

/// The ids that an update's deletions name, and those that it spells deleted or gone. It takes an
/// insertion for each run or struct that it spells so, and walks no unit of it.
pub(crate) fn named_by(update: &Update) -> Result<IdSet, NoMemory>
    requires { IsValidUpdate (update_value update.now) }
    ensures { IfOk result (λ named. named ≡ deletes_of (update_value update.now)) }
{
    let mut named = update.deletes.copy()?;
    for block in update.blocks.as_slice() {
        add_block(&mut named, block)?;
    }
    Ok(named)
}

/// Adds the ids that a block spells deleted or gone. Where memory ends, some of them are added.
fn add_block(named: &mut IdSet, block: &Block) -> Result<(), NoMemory>
    requires { IsValidBlock (block_value block.now) }
    ensures { OnOk result (named.new ≡ union_of
        (structs_spans block.now.client block.now.clock (map struct_value block.now.structs))
        named.old) }
{
    let mut clock = block.clock;
    for next in block.structs.as_slice() {
        add_struct(named, block.client, clock, next)?;
        clock += next.len();
    }
    Ok(())
}

/// Adds the ids that a struct at a clock of a client spells deleted or gone.
fn add_struct(named: &mut IdSet, client: Client, clock: u64, next: &Struct) -> Result<(), NoMemory>
    requires client { IsClient client }
    requires at { IsStructAt client clock (struct_value next.now) }
    requires end { IsClock (clock + clocks_of (struct_value next.now)) }
    ensures { OnOk result (named.new
        ≡ union_of (struct_spans client clock (struct_value next.now)) named.old) }
{
    match next {
        Struct::Item(run) => add_run(named, run),
        Struct::Skip(_) => Ok(()),
        Struct::Gone(count) => {
            let len = *count;
            named.insert(Span { client, clock, len })?;
            Ok(())
        }
    }
}

/// Adds the ids of a run that is deleted.
fn add_run(named: &mut IdSet, run: &Run) -> Result<(), NoMemory>
    requires client { IsClient run.now.id.client }
    requires end { IsClock (run.now.id.clock + len_of (content_value run.now.content)) }
    ensures { OnOk result (named.new
        ≡ union_of (content_spans run.now.id (content_value run.now.content)) named.old) }
{
    match &run.content {
        Content::Deleted(count) => {
            let Id { client, clock } = run.id;
            let len = *count;
            named.insert(Span { client, clock, len })?;
            Ok(())
        }
        _ => Ok(()),
    }
}
