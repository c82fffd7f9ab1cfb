//! The union of two lists of maximal spans, in one pass.

ghost use Rattle.std.specs.Prelude.{◌≡◌, ◌<◌, ◌⊎◌, [], IfOk, OnOk};
ghost use Rattle.std.specs.Bool.{OnTrue, OnFalse};
ghost use Rattle.yd_ids.specs.Id.{IsSpan};
ghost use Rattle.yd_ids.specs.Set.{AreMaximal, AddsSpans};
ghost use Rattle.yd_ids.specs.Uniting.{BeginsFirst, TakesNext, with_last};

use crate::fault::NoMemory;
use crate::id::Span;
use crate::span::{begins_by, ends_below, join};
use std::alloc::Global;
use yd_pieces::{Pieces, PiecesIter};

/// The spans that have the ids of both lists.
pub fn united(
    alloc: Global,
    left: &Pieces<Span>,
    right: &Pieces<Span>,
) -> Result<Pieces<Span>, NoMemory>
    requires left { AreMaximal left.now.items }
    requires right { AreMaximal right.now.items }
    ensures maximal { IfOk result (λ both. AreMaximal both.items) }
    ensures added { IfOk result (λ both. AddsSpans left.now.items both.items right.now.items) }
{
    let mut both = Pieces::new(alloc);
    let mut lefts = left.iter();
    let mut rights = right.iter();
    while let Some(span) = next_of(&mut lefts, &mut rights) {
        add_last(&mut both, span)?;
    }
    Ok(both)
}

/// Takes the span that begins first among both lists, or none where both are at their ends.
fn next_of(left: &mut PiecesIter<'_, Span>, right: &mut PiecesIter<'_, Span>) -> Option<Span>
    requires left { AreMaximal left.old }
    requires right { AreMaximal right.old }
    ensures { TakesNext left.old right.old left.new right.new result }
{
    if is_left_next(left, right) {
        return left.next().copied();
    }
    right.next().copied()
}

/// The next span of the left list begins no later than that of the right one.
fn is_left_next(left: &PiecesIter<'_, Span>, right: &PiecesIter<'_, Span>) -> bool
    requires left { AreMaximal left.now }
    requires right { AreMaximal right.now }
    ensures left_first { OnTrue result (BeginsFirst left.now right.now) }
    ensures right_first { OnFalse result (BeginsFirst right.now left.now
        ⊎ ((left.now ≡ []) × (right.now ≡ []))) }
{
    match (left.peek(), right.peek()) {
        (Some(span), Some(other)) => begins_by(*span, *other),
        (Some(_), None) => true,
        (None, _) => false,
    }
}

/// Adds a span behind the others, joined with the last one where they touch.
pub fn add_last(spans: &mut Pieces<Span>, span: Span) -> Result<(), NoMemory>
    requires maximal { AreMaximal spans.old.items }
    requires is_span { IsSpan span }
    ensures { OnOk result (spans.new.items ≡ with_last spans.old.items span) }
{
    let len = spans.len();
    if len > 0 && !ends_below(*spans.get(len - 1), span.client.0, span.clock) {
        let joined = join(*spans.get(len - 1), span);
        spans.set(len - 1, joined);
        return Ok(());
    }
    spans.push(span)?;
    Ok(())
}
