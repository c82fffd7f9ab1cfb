//! What deletions name.

ghost use Rattle.std.specs.Prelude.{◌<◌, OnOk};
ghost use Rattle.yd_ids.specs.Id.{IsSpan};
ghost use Rattle.yd_ids.specs.Set.{HasId};
ghost use Rattle.yd_ids.specs.declared.id.Id.{Id};
ghost use Rattle.yd_ids.specs.Span.{InSpan};
ghost use Rattle.yd_arena.specs.Arena.{next_clock};
ghost use Rattle.yd_listing.specs.Steps.{AddsAll};

use crate::spans::{add_span, has_span, span_below};
use std::alloc::Global;
use yd_ids::{IdSet, Span};
use yd_kept::Kept;
use yd_ops::NoMemory;

/// Adds what a set names and is held. A span that is deleted already is left out.
pub(crate) fn add_named(
    alloc: Global,
    spans: &mut Vec<Span>,
    kept: &Kept,
    deleted: &IdSet,
    named: &IdSet,
) -> Result<(), NoMemory>
    ensures { OnOk result (AddsAll deleted.now (λ x. HasId named.now x
        × (x.clock < next_clock kept.now.store.placed x.client.0))
        spans.old.items spans.new.items) }
{
    for span in named.spans() {
        add_held(alloc, spans, kept, deleted, span)?;
    }
    Ok(())
}

/// Adds what is held of a span, unless all of it is deleted already.
fn add_held(
    alloc: Global,
    spans: &mut Vec<Span>,
    kept: &Kept,
    deleted: &IdSet,
    span: Span,
) -> Result<(), NoMemory>
    requires { IsSpan span }
    ensures { OnOk result (AddsAll deleted.now (λ x. InSpan span x
        × (x.clock < next_clock kept.now.store.placed x.client.0))
        spans.old.items spans.new.items) }
{
    let held = span_below(span, kept.store().next_clock(span.client));
    if !has_span(alloc, deleted, held)? {
        add_span(spans, held)?;
    }
    Ok(())
}
