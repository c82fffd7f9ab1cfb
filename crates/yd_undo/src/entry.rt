//! What one update inserted and deleted.

ghost use Rattle.std.specs.Prelude.{◌≡◌, ◌++◌, map, IfOk, OnOk};
ghost use Rattle.yd_ops.specs.Valid.{IsValidBlock, IsValidUpdate};
ghost use Rattle.yd_ops.specs.View.{struct_value, block_value, update_value};
ghost use Rattle.yd_undo.specs.Entry.{struct_ids, structs_ids, blocks_ids, undo_entry};

use std::alloc::Global;
use yd_ids::{Client, IdSet, Span};
use yd_making::NoMemory;
use yd_ops::{Block, Struct, Update};
use yd_subsets::difference;

/// What one update inserted, and what it deleted that was not noted before.
#[derive(Drop)]
pub struct Entry {
    /// The ids that it inserted.
    pub inserted: IdSet,
    /// The ids that it deleted.
    pub deleted: IdSet,
}

/// The entry of an update, where these ids were noted as deleted before.
pub(crate) fn entry_of(alloc: Global, noted: &IdSet, update: &Update) -> Result<Entry, NoMemory>
    requires { IsValidUpdate (update_value update.now) }
    ensures { IfOk result (λ entry. entry ≡ undo_entry noted.now (update_value update.now)) }
{
    let mut spans = Vec::new(alloc);
    add_update(&mut spans, update)?;
    let inserted = IdSet::of_spans(alloc, spans)?;
    let deleted = difference(alloc, &update.deletes, noted)?;
    Ok(Entry { inserted, deleted })
}

/// Adds the ids of an update's structs.
fn add_update(spans: &mut Vec<Span>, update: &Update) -> Result<(), NoMemory>
    requires { IsValidUpdate (update_value update.now) }
    ensures { OnOk result (spans.new.items
        ≡ spans.old.items ++ blocks_ids (map block_value update.now.blocks)) }
{
    for block in update.blocks.as_slice() {
        add_block(spans, block)?;
    }
    Ok(())
}

/// Adds the ids of a block's structs.
fn add_block(spans: &mut Vec<Span>, block: &Block) -> Result<(), NoMemory>
    requires { IsValidBlock (block_value block.now) }
    ensures { OnOk result (spans.new.items ≡ spans.old.items
        ++ structs_ids block.now.client block.now.clock (map struct_value block.now.structs)) }
{
    let mut clock = block.clock;
    for next in block.structs.as_slice() {
        add_struct(spans, block.client, clock, next)?;
        clock += next.len();
    }
    Ok(())
}

/// Adds the ids of a struct at a clock of a client.
fn add_struct(
    spans: &mut Vec<Span>,
    client: Client,
    clock: u64,
    next: &Struct,
) -> Result<(), NoMemory>
    ensures { OnOk result (spans.new.items
        ≡ spans.old.items ++ struct_ids client clock (struct_value next.now)) }
{
    match next {
        Struct::Skip(_) => Ok(()),
        _ => {
            let len = next.len();
            spans.push(Span { client, clock, len })?;
            Ok(())
        }
    }
}
