//! What updates delete by name.

ghost use Rattle.std.specs.Prelude.{◌≡◌, [], ◌∷◌, ◌++◌, map, IfOk, OnOk};
ghost use Rattle.yd_words.specs.Each.{Each};
ghost use Rattle.yd_ops.specs.Valid.{IsValidBlock, IsValidUpdate};
ghost use Rattle.yd_ops.specs.View.{content_value, struct_value, block_value, update_value};
ghost use Rattle.yd_ops.specs.Deletes.{content_spans, struct_spans, structs_spans};
ghost use Rattle.yd_ops.specs.Received.{received_set};
ghost use Rattle.yd_merge.specs.Named.{named_spans};

use crate::fault::NoMemory;
use std::alloc::Global;
use yd_ids::{Client, Id, IdSet, Span};
use yd_ops::{Block, Content, Run, Struct, Update};

/// The ids that updates delete by name, in the time of sorting the spans that they spell.
pub fn named_by(alloc: Global, updates: &[Update]) -> Result<IdSet, NoMemory>
    requires { Each IsValidUpdate (map update_value updates.now) }
    ensures { IfOk result (λ named. named
        ≡ (received_set (map update_value updates.now)).deletes) }
{
    let mut spans = Vec::new(alloc);
    for update in updates {
        note_update(&mut spans, update)?;
    }
    let named = IdSet::of_spans(alloc, spans)?;
    Ok(named)
}

/// The ids that an update deletes by name, in the time of sorting the spans that it spells.
pub fn named_in(alloc: Global, update: &Update) -> Result<IdSet, NoMemory>
    requires { IsValidUpdate (update_value update.now) }
    ensures { IfOk result (λ named. named
        ≡ (received_set (update_value update.now ∷ [])).deletes) }
{
    let mut spans = Vec::new(alloc);
    note_update(&mut spans, update)?;
    let named = IdSet::of_spans(alloc, spans)?;
    Ok(named)
}

/// Notes what an update deletes by name.
fn note_update(spans: &mut Vec<Span>, update: &Update) -> Result<(), NoMemory>
    requires { IsValidUpdate (update_value update.now) }
    ensures { OnOk result (spans.new.items
        ≡ spans.old.items ++ named_spans (update_value update.now)) }
{
    for block in update.blocks.as_slice() {
        note_block(spans, block)?;
    }
    note_deletes(spans, &update.deletes)?;
    Ok(())
}

/// Notes the spans of a set.
fn note_deletes(spans: &mut Vec<Span>, deletes: &IdSet) -> Result<(), NoMemory>
    ensures { OnOk result (spans.new.items ≡ spans.old.items ++ deletes.now) }
{
    for span in deletes.spans() {
        spans.push(span)?;
    }
    Ok(())
}

/// Notes what a block spells deleted or gone.
fn note_block(spans: &mut Vec<Span>, block: &Block) -> Result<(), NoMemory>
    requires { IsValidBlock (block_value block.now) }
    ensures { OnOk result (spans.new.items ≡ spans.old.items
        ++ structs_spans block.now.client block.now.clock (map struct_value block.now.structs)) }
{
    let mut clock = block.clock;
    for next in block.structs.as_slice() {
        note_struct(spans, block.client, clock, next)?;
        clock += next.len();
    }
    Ok(())
}

/// Notes what a struct at a clock of a client spells deleted or gone.
fn note_struct(
    spans: &mut Vec<Span>,
    client: Client,
    clock: u64,
    next: &Struct,
) -> Result<(), NoMemory>
    ensures { OnOk result (spans.new.items
        ≡ spans.old.items ++ struct_spans client clock (struct_value next.now)) }
{
    match next {
        Struct::Item(run) => note_run(spans, run),
        Struct::Skip(_) => Ok(()),
        Struct::Gone(count) => {
            let len = *count;
            spans.push(Span { client, clock, len })?;
            Ok(())
        }
    }
}

/// Notes the ids of a run that is deleted.
fn note_run(spans: &mut Vec<Span>, run: &Run) -> Result<(), NoMemory>
    ensures { OnOk result (spans.new.items
        ≡ spans.old.items ++ content_spans run.now.id (content_value run.now.content)) }
{
    match &run.content {
        Content::Deleted(count) => {
            let Id { client, clock } = run.id;
            let len = *count;
            spans.push(Span { client, clock, len })?;
            Ok(())
        }
        _ => Ok(()),
    }
}
