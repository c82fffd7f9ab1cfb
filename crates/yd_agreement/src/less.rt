//! The ids that an update spells less than full.

ghost use Rattle.std.specs.Prelude.{◌≡◌, ◌↔◌, ◌++◌, map, IfOk, OnOk};
ghost use Rattle.yd_ids.specs.Set.{HasId};
ghost use Rattle.yd_ids.specs.declared.id.Id.{Id};
ghost use Rattle.yd_ops.specs.Operation.{operations_of};
ghost use Rattle.yd_ops.specs.Valid.{IsValidBlock, IsValidUpdate};
ghost use Rattle.yd_ops.specs.View.{block_value, content_value, struct_value, update_value};
ghost use Rattle.yd_ops.specs.Deletes.{SpellLess, content_spans, struct_spans, structs_spans};

use crate::fault::NoMemory;
use std::alloc::Global;
use yd_ids::{Client, Id, IdSet, Span};
use yd_ops::{Block, Content, Run, Struct, Update};

/// The ids that an update spells deleted or gone, in the time of sorting their spans. Those that
/// its deletions name are not among them.
pub fn less_in(alloc: Global, update: &Update) -> Result<IdSet, NoMemory>
    requires { IsValidUpdate (update_value update.now) }
    ensures { IfOk result (λ less. (x : Id) →
        SpellLess (operations_of (update_value update.now)) x ↔ HasId less x) }
{
    let mut spans = Vec::new(alloc);
    for block in update.blocks.as_slice() {
        note_block(&mut spans, block)?;
    }
    let less = IdSet::of_spans(alloc, spans)?;
    Ok(less)
}

/// Notes what a block spells deleted or gone.
fn note_block(spans: &mut Vec<Span>, block: &Block) -> Result<(), NoMemory>
    requires { IsValidBlock (block_value block.now) }
    ensures { OnOk result (spans.new.items ≡ spans.old.items
        ++ structs_spans block.now.client block.now.clock (map struct_value block.now.structs)) }
{
    let mut clock = block.clock;
    for next in block.structs.as_slice() {
        note_struct(spans, block.client, clock, next)?;
        clock += next.len();
    }
    Ok(())
}

/// Notes what a struct at a clock of a client spells deleted or gone.
fn note_struct(
    spans: &mut Vec<Span>,
    client: Client,
    clock: u64,
    next: &Struct,
) -> Result<(), NoMemory>
    ensures { OnOk result (spans.new.items
        ≡ spans.old.items ++ struct_spans client clock (struct_value next.now)) }
{
    match next {
        Struct::Item(run) => note_run(spans, run),
        Struct::Skip(_) => Ok(()),
        Struct::Gone(count) => {
            let len = *count;
            spans.push(Span { client, clock, len })?;
            Ok(())
        }
    }
}

/// Notes the ids of a run that is deleted.
fn note_run(spans: &mut Vec<Span>, run: &Run) -> Result<(), NoMemory>
    ensures { OnOk result (spans.new.items
        ≡ spans.old.items ++ content_spans run.now.id (content_value run.now.content)) }
{
    match &run.content {
        Content::Deleted(count) => {
            let Id { client, clock } = run.id;
            let len = *count;
            spans.push(Span { client, clock, len })?;
            Ok(())
        }
        _ => Ok(()),
    }
}
