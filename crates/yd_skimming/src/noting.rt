//! Ids of structs, noted one span after another.

ghost use Rattle.std.specs.Prelude.{◌↔◌, ◌+◌, [], ◌∷◌, ◌++◌, map, IsTrue, OnOk};
ghost use Rattle.yd_words.specs.Each.{Each};
ghost use Rattle.yd_ids.specs.Id.{IsClient, IsClock, IsSpan};
ghost use Rattle.yd_ids.specs.Set.{HaveSameIds};
ghost use Rattle.yd_ops.specs.Valid.{IsStructAt, IsValidBlock, IsValidUpdate};
ghost use Rattle.yd_ops.specs.Value.{clocks_of};
ghost use Rattle.yd_ops.specs.View.{block_value, struct_value, update_value};
ghost use Rattle.yd_merge.specs.Lending.{blocks_groups, struct_groups, structs_groups};
ghost use Rattle.yd_skimming.specs.Noting.{IsBehind, NotesGroups, span_from};

use yd_ids::{Id, Span};
use yd_ops::{Block, Struct, Update};
use yd_parts::NoMemory;

/// Notes the ids of the structs of an update.
pub fn note_update(spans: &mut Vec<Span>, update: &Update) -> Result<(), NoMemory>
    requires update { IsValidUpdate (update_value update.now) }
    requires spans { Each IsSpan spans.old.items }
    ensures spans { Each IsSpan spans.new.items }
    ensures noted { OnOk result (NotesGroups spans.old.items spans.new.items
        (blocks_groups (update_value update.now).blocks)) }
{
    for block in update.blocks.as_slice() {
        note_block(spans, block)?;
    }
    Ok(())
}

/// Notes the ids of the structs of a block.
fn note_block(spans: &mut Vec<Span>, block: &Block) -> Result<(), NoMemory>
    requires block { IsValidBlock (block_value block.now) }
    requires spans { Each IsSpan spans.old.items }
    ensures spans { Each IsSpan spans.new.items }
    ensures noted { OnOk result (NotesGroups spans.old.items spans.new.items
        (structs_groups block.now.client block.now.clock (map struct_value block.now.structs))) }
{
    let mut clock = block.clock;
    for next in block.structs.as_slice() {
        let id = Id {
            client: block.client,
            clock,
        };
        note_struct(spans, id, next)?;
        clock += next.len();
    }
    Ok(())
}

/// Notes the ids of a struct that begins at an id. A skip has none.
#[inline]
pub fn note_struct(spans: &mut Vec<Span>, id: Id, next: &Struct) -> Result<(), NoMemory>
    requires client { IsClient id.client }
    requires valid { IsStructAt id.client id.clock (struct_value next.now) }
    requires end { IsClock (id.clock + clocks_of (struct_value next.now)) }
    requires spans { Each IsSpan spans.old.items }
    ensures spans { Each IsSpan spans.new.items }
    ensures noted { OnOk result (NotesGroups spans.old.items spans.new.items
        (struct_groups id.client id.clock (struct_value next.now))) }
{
    match next {
        Struct::Item(run) => {
            note(spans, run.id, run.len())?;
            Ok(())
        }
        Struct::Skip(_) => Ok(()),
        Struct::Gone(count) => {
            note(spans, id, *count)?;
            Ok(())
        }
    }
}

/// Notes so many ids from one on. Where they go on with those that were noted last, that span
/// grows.
#[inline]
pub fn note(spans: &mut Vec<Span>, id: Id, len: u64) -> Result<(), NoMemory>
    requires client { IsClient id.client }
    requires end { IsClock (id.clock + len) }
    requires spans { Each IsSpan spans.old.items }
    ensures spans { Each IsSpan spans.new.items }
    ensures noted { OnOk result
        (HaveSameIds spans.new.items (spans.old.items ++ span_from id len ∷ [])) }
{
    let count = spans.len();
    if count > 0 && is_behind(spans[count - 1], id) {
        spans[count - 1].len += len;
        return Ok(());
    }
    spans.push(Span {
        client: id.client,
        clock: id.clock,
        len,
    })?;
    Ok(())
}

/// The id is the one behind the span.
fn is_behind(span: Span, id: Id) -> bool
    requires { IsSpan span }
    ensures { IsTrue result ↔ IsBehind span id }
{
    span.client.0 == id.client.0 && span.clock + span.len == id.clock
}
