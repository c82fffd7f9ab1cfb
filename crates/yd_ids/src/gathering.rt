//! The set of many spans, in any order.

ghost use Rattle.std.specs.Prelude.{◌≡◌, ◌<◌, length, drop, IsTrue, IfOk};
ghost use Rattle.yd_words.specs.Each.{Each};
ghost use Rattle.yd_ids.specs.Gathering.{AreOrdered, IsApart};
ghost use Rattle.yd_ids.specs.Id.{IsSpan};
ghost use Rattle.yd_ids.specs.Set.{HaveSameIds, AreMaximal};

use crate::fault::NoMemory;
use crate::id::Span;
use crate::span::ends_below;
use crate::uniting::add_last;
use std::alloc::Global;
use yd_pieces::Pieces;

/// The maximal spans that have the ids of these.
pub fn gathered(alloc: Global, mut spans: Vec<Span>) -> Result<Pieces<Span>, NoMemory>
    requires { Each IsSpan spans.items }
    ensures maximal { IfOk result (λ set. AreMaximal set.items) }
    ensures ids { IfOk result (λ set. HaveSameIds set.items spans.items) }
{
    if are_maximal(&spans) {
        let set = in_pieces(alloc, spans)?;
        return Ok(set);
    }
    spans.sort_unstable();
    let set = of_ordered(alloc, &spans)?;
    Ok(set)
}

/// The spans are in order and none is empty, and no two of one client overlap or touch.
fn are_maximal(spans: &[Span]) -> bool
    requires { Each IsSpan spans.now }
    ensures { IsTrue result → AreMaximal spans.now }
{
    let mut at = spans.len();
    while at > 0 {
        at -= 1;
        if !is_apart(spans, at) {
            return false;
        }
    }
    true
}

/// The span at a place has ids, and ends before the next one.
fn is_apart(spans: &[Span], at: usize) -> bool
    requires { at < length spans.now }
    ensures { IsTrue result → IsApart (drop at spans.now) }
{
    let span = spans[at];
    if at + 1 == spans.len() {
        return span.len > 0;
    }
    let next = spans[at + 1];
    span.len > 0 && ends_below(span, next.client.0, next.clock)
}

/// The same spans in pieces. Few stay where they are.
fn in_pieces(alloc: Global, spans: Vec<Span>) -> Result<Pieces<Span>, NoMemory>
    ensures { IfOk result (λ list. list.items ≡ spans.items) }
{
    match Pieces::of_piece(alloc, spans) {
        Ok(list) => Ok(list),
        Err(spans) => {
            let list = pushed(alloc, &spans)?;
            Ok(list)
        }
    }
}

/// The same spans, pushed one after another.
fn pushed(alloc: Global, spans: &[Span]) -> Result<Pieces<Span>, NoMemory>
    ensures { IfOk result (λ list. list.items ≡ spans.now) }
{
    let mut list = Pieces::new(alloc);
    for span in spans {
        list.push(*span)?;
    }
    Ok(list)
}

/// The maximal spans that have the ids of these, each of which begins where the next does, or before.
fn of_ordered(alloc: Global, spans: &[Span]) -> Result<Pieces<Span>, NoMemory>
    requires spans { Each IsSpan spans.now }
    requires ordered { AreOrdered spans.now }
    ensures maximal { IfOk result (λ set. AreMaximal set.items) }
    ensures ids { IfOk result (λ set. HaveSameIds set.items spans.now) }
{
    let mut set = Pieces::new(alloc);
    for span in spans {
        if span.len > 0 {
            add_last(&mut set, *span)?;
        }
    }
    Ok(set)
}
