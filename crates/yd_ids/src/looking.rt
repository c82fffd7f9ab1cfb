//! Where an id stands among maximal spans.

ghost use Rattle.std.specs.Prelude.{◌≡◌, ◌↔◌, ◌≤◌, ◌+◌, true, false, length, take, drop, IsTrue};
ghost use Rattle.yd_words.specs.Each.{Each};
ghost use Rattle.yd_ids.specs.declared.id.Id.{Id};
ghost use Rattle.yd_ids.specs.Covering.{HasAll, covers};
ghost use Rattle.yd_ids.specs.Id.{IsId, IsSpan};
ghost use Rattle.yd_ids.specs.Set.{HasId, AreMaximal};
ghost use Rattle.yd_ids.specs.Span.{InSpan, EndsBelow, Reaches, EndsBefore, ReachesInto, start_of};

use crate::id::{Id, Span};
use crate::span::{ends_below, is_in};
use yd_pieces::{Pieces, Test};

/// A test for spans that end below a clock of a client without touching it.
#[derive(Drop)]
struct Below {
    client: u64,
    clock: u64,
}

impl Test<Span> for Below {
    ghost use Rattle.yd_ids.specs.Span.{ends_below};

    ghost passes = { λ test span. ends_below span test.client test.clock };

    fn passes(&self, item: &Span) -> bool {
        ends_below(*item, self.client, self.clock)
    }
}

/// A test for spans that begin where a span ends, or before.
#[derive(Drop)]
struct ReachedBy {
    span: Span,
}

impl Test<Span> for ReachedBy {
    ghost use Rattle.yd_ids.specs.Span.{reaches_into};

    ghost passes = { λ test span. reaches_into test.span span };

    fn passes(&self, item: &Span) -> bool {
        !ends_below(self.span, item.client.0, item.clock)
    }
}

/// How many spans end below the clock of the client without touching it.
pub fn place(spans: &Pieces<Span>, client: u64, clock: u64) -> usize
    requires { AreMaximal spans.now.items }
    ensures bound { result ≤ length spans.now.items }
    ensures before { Each (λ span. EndsBelow span client clock) (take result spans.now.items) }
    ensures behind { Each (λ span. Reaches span client clock) (drop result spans.now.items) }
{
    spans.partition_point(&Below { client, clock })
}

/// How many spans begin where a span ends, or before.
pub fn reached(spans: &Pieces<Span>, span: Span) -> usize
    requires { AreMaximal spans.now.items }
    ensures bound { result ≤ length spans.now.items }
    ensures before { Each (ReachesInto span) (take result spans.now.items) }
    ensures behind { Each (EndsBefore span) (drop result spans.now.items) }
{
    spans.partition_point(&ReachedBy { span })
}

/// The test for spans that begin at an id or before it.
fn begun_by(id: Id) -> ReachedBy
    ensures { result.span ≡ start_of id }
{
    ReachedBy {
        span: Span {
            client: id.client,
            clock: id.clock,
            len: 0,
        },
    }
}

/// The id is in one of the spans, which is then the last that begins at the id or before it.
pub fn has_in(spans: &Pieces<Span>, id: Id) -> bool
    requires maximal { AreMaximal spans.now.items }
    requires is_id { IsId id }
    ensures { IsTrue result ↔ HasId spans.now.items id }
{
    match spans.last_passed(&begun_by(id)) {
        Some(span) => is_in(*span, id),
        None => false,
    }
}

/// Each id of the others is in one of the spans.
pub fn has_spans(spans: &Pieces<Span>, others: &Pieces<Span>) -> bool
    requires maximal { AreMaximal spans.now.items }
    requires others { AreMaximal others.now.items }
    ensures { IsTrue result ↔ HasAll spans.now.items others.now.items }
{
    for span in others.iter() {
        if !has_span(spans, *span) {
            return false;
        }
    }
    true
}

/// Each id of the span is in one of the spans, which is then the one that has its first id.
pub fn has_span(spans: &Pieces<Span>, span: Span) -> bool
    requires maximal { AreMaximal spans.now.items }
    requires is_span { IsSpan span }
    ensures { IsTrue result ↔ ((id : Id) → InSpan span id → HasId spans.now.items id) }
{
    if span.len == 0 {
        return true;
    }
    let first = Id {
        client: span.client,
        clock: span.clock,
    };
    match spans.last_passed(&begun_by(first)) {
        Some(found) => covers(*found, span),
        None => false,
    }
}

/// Each id of the second span is one of the first, where the second has any.
fn covers(span: Span, other: Span) -> bool
    requires is_span { IsSpan span }
    requires other { IsSpan other }
    ensures { result ≡ covers span other }
{
    span.client.0 == other.client.0
        && span.clock <= other.clock
        && other.clock + other.len <= span.clock + span.len
}
