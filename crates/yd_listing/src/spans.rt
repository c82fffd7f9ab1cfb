//! Spans of runs, and parts of spans.

ghost use Rattle.std.specs.Prelude.{◌≡◌, ◌≢◌, ◌<◌, ◌+◌, true, false, None, length, IfOk, OnOk};
ghost use Rattle.yd_ids.specs.declared.id.Id.{Id};
ghost use Rattle.yd_ids.specs.Id.{IsSpan};
ghost use Rattle.yd_ids.specs.Set.{HasId};
ghost use Rattle.yd_ids.specs.Span.{InSpan};
ghost use Rattle.yd_scan.specs.Stretches.{stretch_at};
ghost use Rattle.yd_arena.specs.Arena.{runs_of};
ghost use Rattle.yd_store.specs.Contents.{told_of, run_at};
ghost use Rattle.yd_listing.specs.Steps.{span_of, last_of_span, span_below, span_behind, InSpanBut, Adds};

use std::alloc::Global;
use yd_ids::{Id, IdSet, Span};
use yd_ops::NoMemory;
use yd_store::Store;

/// The ids of the run at a place, which is not gone.
pub(crate) fn span_at(store: &Store, place: usize) -> Span
    requires place { place < length (runs_of store.now.placed) }
    requires told { run_at (told_of store.now.contents) place ≢ None }
    ensures { result ≡ span_of (stretch_at (runs_of store.now.placed) place) }
{
    store.is_sound();
    let Some(run) = store.run_of(place) else {
        unreachable!();
    };
    Span {
        client: run.id.client,
        clock: run.id.clock,
        len: run.len(),
    }
}

/// The first id of a span.
fn first_id(span: Span) -> Id
    ensures { result ≡ record { client = span.client; clock = span.clock } }
{
    Id {
        client: span.client,
        clock: span.clock,
    }
}

/// The last id of a span.
pub(crate) fn last_id(span: Span) -> Id
    requires is_span { IsSpan span }
    requires some { 0 < span.len }
    ensures { result ≡ last_of_span span }
{
    Id {
        client: span.client,
        clock: span.clock + (span.len - 1),
    }
}

/// The span's ids below a clock.
pub(crate) fn span_below(span: Span, clock: u64) -> Span
    requires { IsSpan span }
    ensures { result ≡ span_below span clock }
{
    Span {
        client: span.client,
        clock: span.clock,
        len: span.len.min(clock.saturating_sub(span.clock)),
    }
}

/// The span's ids behind one of its clocks.
pub(crate) fn span_behind(span: Span, clock: u64) -> Span
    requires is_span { IsSpan span }
    requires inside { clock < span.clock + span.len }
    ensures { result ≡ span_behind span clock }
{
    Span {
        client: span.client,
        clock: clock + 1,
        len: span.clock + span.len - (clock + 1),
    }
}

/// The id is one of the span's.
pub(crate) fn is_in(span: Span, id: Id) -> bool
    requires { IsSpan span }
    ensures here { result ≡ true → InSpan span id }
    ensures other { result ≡ false → InSpan span id → ⊥ }
{
    span.client.0 == id.client.0 && span.clock <= id.clock && id.clock < span.clock + span.len
}

/// The set has each id of the span.
pub(crate) fn has_span(alloc: Global, set: &IdSet, span: Span) -> Result<bool, NoMemory>
    requires { IsSpan span }
    ensures { IfOk result (λ has. has ≡ true → (x : Id) → InSpan span x → HasId set.now x) }
{
    if span.len > 0 && !set.has(first_id(span)) {
        return Ok(false);
    }
    let mut one = IdSet::new(alloc);
    one.insert(span)?;
    Ok(set.has_all(&one))
}

/// Adds the ids of a span. One without ids is not put there.
pub(crate) fn add_span(spans: &mut Vec<Span>, span: Span) -> Result<(), NoMemory>
    requires { IsSpan span }
    ensures adds { OnOk result (Adds (InSpan span) spans.old.items spans.new.items) }
    ensures all { OnOk result ((x : Id) → InSpan span x → HasId spans.new.items x) }
{
    if span.len > 0 {
        spans.push(span)?;
    }
    Ok(())
}

/// Adds the ids of a span, but for one.
pub(crate) fn add_but(spans: &mut Vec<Span>, span: Span, last: Id) -> Result<(), NoMemory>
    requires { IsSpan span }
    ensures adds { OnOk result (Adds (InSpanBut span last) spans.old.items spans.new.items) }
    ensures all { OnOk result ((x : Id) → InSpanBut span last x → HasId spans.new.items x) }
{
    if !is_in(span, last) {
        return add_span(spans, span);
    }
    add_span(spans, span_below(span, last.clock))?;
    add_span(spans, span_behind(span, last.clock))?;
    Ok(())
}
