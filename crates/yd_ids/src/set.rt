//! Delete sets: finite sets of ids.

ghost use Rattle.std.specs.Prelude.{◌≡◌, ◌↔◌, ◌<◌, [], IsTrue, IfOk, OnOk, OnErr};
ghost use Rattle.std.specs.Iterator.{YieldsFirst, item_count};
ghost use Rattle.yd_words.specs.Each.{Each};
ghost use Rattle.yd_ids.specs.Covering.{HasAll};
ghost use Rattle.yd_ids.specs.Id.{IsId, IsSpan};
ghost use Rattle.yd_ids.specs.Set.{HasId, HaveSameIds, AreMaximal, AddsSpan, AddsSpans, with_span, union_of, set_of};

use crate::fault::NoMemory;
use crate::gathering::gathered;
use crate::id::{Id, Span};
use crate::inserting::insert_in;
use crate::looking::{has_in, has_spans};
use crate::uniting::united;
use std::alloc::Global;
use std::marker::Model;
use yd_pieces::{Pieces, PiecesIter};

/// A finite set of ids, seen as the list of its maximal spans, in order of the clients, then of the
/// clocks. Behind it the list lies in pieces, so that a look-up is a bisection, and a change in the
/// midst moves few spans.
#[derive(Drop)]
pub struct IdSet {
    spans: Pieces<Span>,
}

impl Model for IdSet {
    ghost use Rattle.std.specs.Prelude.{List};
    ghost use Rattle.yd_ids.specs.declared.id.Span.{Span};
    ghost use Rattle.yd_ids.specs.Set.{AreMaximal};

    ghost Value = { List Span };

    ghost view = { λ it. it.spans.items };

    ghost invariant = { λ it. AreMaximal it.spans.items };
}

impl IdSet {
    /// The set without ids.
    pub fn new(alloc: Global) -> IdSet
        ensures { result ≡ [] }
    {
        IdSet {
            spans: Pieces::new(alloc),
        }
    }

    /// The set of the ids of these spans, in any order, which may overlap or be empty. It takes the
    /// time of sorting them.
    pub fn of_spans(alloc: Global, spans: Vec<Span>) -> Result<IdSet, NoMemory>
        requires { Each IsSpan spans.items }
        ensures ids { IfOk result (λ set. HaveSameIds set spans.items) }
        ensures exact { IfOk result (λ set. set ≡ set_of spans.items) }
        ensures maximal { IfOk result AreMaximal }
    {
        let spans = gathered(alloc, spans)?;
        Ok(IdSet { spans })
    }

    /// Adds the span's ids; a span of length 0 has none. It takes time with the logarithm of how
    /// many spans there are, and for each piece that it changes that of moving the spans of the
    /// piece, and with the number of pieces.
    pub fn insert(&mut self, span: Span) -> Result<(), NoMemory>
        requires { IsSpan span }
        ensures added { OnOk result (AddsSpan self.old self.new span) }
        ensures exact { OnOk result (self.new ≡ with_span span self.old) }
        ensures maximal { AreMaximal self.new }
        ensures unchanged { OnErr result (self.new ≡ self.old) }
        ensures only_some { OnErr result (0 < span.len) }
    {
        insert_in(&mut self.spans, span)?;
        Ok(())
    }

    /// Adds the other's ids, in one pass over both lists and in memory of their lengths.
    pub fn union(&mut self, other: &IdSet) -> Result<(), NoMemory>
        ensures added { OnOk result (AddsSpans self.old self.new other.now) }
        ensures exact { OnOk result (self.new ≡ union_of self.old other.now) }
        ensures maximal { AreMaximal self.new }
        ensures unchanged { OnErr result (self.new ≡ self.old) }
    {
        let spans = united(*self.spans.allocator(), &self.spans, &other.spans)?;
        self.spans = spans;
        Ok(())
    }

    /// The id is in the set. It takes time with the logarithm of how many spans there are.
    pub fn has(&self, id: Id) -> bool
        requires { IsId id }
        ensures found { IsTrue result ↔ HasId self.now id }
        ensures maximal { AreMaximal self.now }
    {
        has_in(&self.spans, id)
    }

    /// Each id of the other is in the set. It takes no memory, and for each span of the other time
    /// with the logarithm of how many spans there are.
    pub fn has_all(&self, other: &IdSet) -> bool
        ensures { IsTrue result ↔ HasAll self.now other.now }
    {
        has_spans(&self.spans, &other.spans)
    }

    /// The maximal spans, in order of the clients, then of the clocks. It takes no memory.
    pub fn spans(&self) -> SpanIter<'_>
        ensures ascending { result ≡ self.now }
        ensures maximal { AreMaximal self.now }
    {
        SpanIter {
            rest: self.spans.iter(),
        }
    }

    /// The same set in memory of its own.
    pub fn copy(&self) -> Result<IdSet, NoMemory>
        ensures { IfOk result (λ copy. copy ≡ self.now) }
    {
        let spans = copied(&self.spans)?;
        Ok(IdSet { spans })
    }
}

/// The same spans in memory of their own.
fn copied(spans: &Pieces<Span>) -> Result<Pieces<Span>, NoMemory>
    ensures { IfOk result (λ copy. copy.items ≡ spans.now.items) }
{
    let mut copy = Pieces::new(*spans.allocator());
    for span in spans.iter() {
        copy.push(*span)?;
    }
    Ok(copy)
}

/// Maximal spans in order, seen as the list of those that are still to come.
#[derive(Drop)]
pub struct SpanIter<'a> {
    rest: PiecesIter<'a, Span>,
}

impl<'a> Model for SpanIter<'a> {
    ghost use Rattle.std.specs.Prelude.{List};
    ghost use Rattle.yd_ids.specs.declared.id.Span.{Span};

    ghost Value = { List Span };

    ghost view = { λ it. it.rest };
}

impl<'a> Iterator for SpanIter<'a> {
    type Item = Span;

    ghost next_gives = { YieldsFirst (λ s. s) };

    ghost remaining = { item_count (λ s. s) };

    fn next(&mut self) -> Option<Span> {
        let span = self.rest.next()?;
        Some(*span)
    }
}
