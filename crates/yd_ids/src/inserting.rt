//! The insertion of a span among maximal spans.

ghost use Rattle.std.specs.Prelude.{◌≡◌, ◌↔◌, ◌<◌, ◌≤◌, ◌⊎◌, ◌∷◌, ◌++◌, length, take, drop, OnOk, OnErr};
ghost use Rattle.yd_ids.specs.Id.{IsSpan};
ghost use Rattle.yd_ids.specs.Inserting.{IsPlace, JoinsUpTo, with_between};
ghost use Rattle.yd_ids.specs.Set.{AreMaximal, AddsSpan};

use crate::fault::NoMemory;
use crate::id::Span;
use crate::looking::{has_span, place, reached};
use crate::span::join;
use yd_pieces::Pieces;

/// Adds the span's ids to the spans.
pub fn insert_in(spans: &mut Pieces<Span>, span: Span) -> Result<(), NoMemory>
    requires maximal { AreMaximal spans.old.items }
    requires is_span { IsSpan span }
    ensures added { OnOk result (AddsSpan spans.old.items spans.new.items span) }
    ensures kept { AreMaximal spans.new.items }
    ensures unchanged { OnErr result (spans.new.items ≡ spans.old.items) }
    ensures only_some { OnErr result (0 < span.len) }
{
    // Often it is there.
    if has_span(spans, span) {
        return Ok(());
    }
    let from = place(spans, span.client.0, span.clock);
    let (to, joined) = joined_from(spans, from, span);
    replace(spans, from, to, joined)?;
    Ok(())
}

/// The span joined with those from a place on that it touches, and where the first other one stands.
fn joined_from(spans: &Pieces<Span>, from: usize, span: Span) -> (usize, Span)
    requires maximal { AreMaximal spans.now.items }
    requires is_span { IsSpan span × (0 < span.len) }
    requires bound { from ≤ length spans.now.items }
    requires place { IsPlace spans.now.items from span }
    ensures { JoinsUpTo spans.now.items from span result.0 result.1 }
{
    if from == spans.len() {
        return (from, span);
    }
    let to = reached(spans, span);
    if from == to {
        return (to, span);
    }
    // Those between lie between the first and the last.
    let joined = join(join(span, *spans.get(from)), *spans.get(to - 1));
    (to, joined)
}

/// Puts one span in place of those between two places.
fn replace(spans: &mut Pieces<Span>, from: usize, to: usize, span: Span) -> Result<(), NoMemory>
    requires bound { (from ≤ to) × (to ≤ length spans.old.items) }
    ensures done { OnOk result (spans.new.items ≡ with_between spans.old.items from to span) }
    ensures unchanged { OnErr result (spans.new.items ≡ spans.old.items) }
{
    if from == to {
        spans.insert(from, span)?;
        return Ok(());
    }
    spans.set(from, span);
    spans.drain(from + 1, to);
    Ok(())
}
