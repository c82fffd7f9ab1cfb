//! What one set has and another has not.

ghost use Rattle.std.specs.Prelude.{◌≡◌, ◌↔◌, IfOk, OnOk};
ghost use Rattle.yd_words.specs.Each.{Each};
ghost use Rattle.yd_ids.specs.declared.id.Id.{Id};
ghost use Rattle.yd_ids.specs.Id.{IsSpan};
ghost use Rattle.yd_ids.specs.Set.{HasId, AreMaximal};
ghost use Rattle.yd_subsets.specs.Part.{HasRest};
ghost use Rattle.yd_subsets.specs.Cut.{below_cut, behind_cut, with_some};

use std::alloc::Global;
use yd_ids::{IdSet, NoMemory, Span};

/// The ids of a set that another one lacks. For each span of the first it goes once over the spans of
/// the other.
pub fn difference(alloc: Global, set: &IdSet, other: &IdSet) -> Result<IdSet, NoMemory>
    ensures ids { IfOk result (λ part. (x : Id)
        → HasId part x ↔ (HasId set.now x × (HasId other.now x → ⊥))) }
    ensures maximal { IfOk result AreMaximal }
{
    let mut rest = Vec::new(alloc);
    for span in set.spans() {
        add_rest(&mut rest, span, other)?;
    }
    let part = IdSet::of_spans(alloc, rest)?;
    Ok(part)
}

/// Adds what a span has and the set has not.
fn add_rest(rest: &mut Vec<Span>, span: Span, other: &IdSet) -> Result<(), NoMemory>
    requires spans { Each IsSpan rest.old.items }
    requires is_span { IsSpan span }
    ensures spans { OnOk result (Each IsSpan rest.new.items) }
    ensures ids { OnOk result (HasRest rest.old.items span other.now rest.new.items) }
{
    let mut left = span;
    for cut in other.spans() {
        add_some(rest, below(left, cut))?;
        left = behind(left, cut);
    }
    add_some(rest, left)?;
    Ok(())
}

/// Adds a span, if it has an id.
fn add_some(rest: &mut Vec<Span>, span: Span) -> Result<(), NoMemory>
    ensures { OnOk result (rest.new.items ≡ with_some rest.old.items span) }
{
    if span.len > 0 {
        rest.push(span)?;
    }
    Ok(())
}

/// The part of a span that stands below another one, of the same client.
fn below(span: Span, cut: Span) -> Span
    requires is_span { IsSpan span }
    ensures { result ≡ below_cut span cut }
{
    let len = if span.client.0 == cut.client.0 && span.clock < cut.clock {
        span.len.min(cut.clock - span.clock)
    } else {
        0
    };
    Span {
        client: span.client,
        clock: span.clock,
        len,
    }
}

/// The part of a span that stands behind another one, and all of it where the other is of another
/// client.
fn behind(span: Span, cut: Span) -> Span
    requires is_span { IsSpan span }
    requires is_cut { IsSpan cut }
    ensures { result ≡ behind_cut span cut }
{
    if span.client.0 != cut.client.0 {
        return span;
    }
    let end = span.clock + span.len;
    let clock = end.min(span.clock.max(cut.clock + cut.len));
    Span {
        client: span.client,
        clock,
        len: end - clock,
    }
}
