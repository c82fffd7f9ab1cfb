//! Halves of a pair of which the other is told less: they become U+FFFD.

ghost use Rattle.std.specs.Prelude.{◌≡◌, ◌↔◌, ◌+◌, Some, IsTrue, IfSome, IfNone, IfOk};
ghost use Rattle.yd_ids.specs.Id.{IsClock};
ghost use Rattle.yd_ids.specs.declared.id.Id.{Id as IdValue};
ghost use Rattle.yd_ops.specs.Operation.{later_id};
ghost use Rattle.yd_ops.specs.View.{content_value};
ghost use Rattle.yd_units.specs.Half.{IsHigh, IsLow};
ghost use Rattle.yd_store.specs.Units.{KeepsUnits};
ghost use Rattle.yd_store.specs.Lowering.{MapsUnits};
ghost use Rattle.yd_store.specs.Halves.{HasPair, HasText, IsKnown, IsAlone, IsFreed, half_of, torn_at, text_at, left_at};

use crate::store::Store;
use yd_ids::Id;
use yd_ops::{Content, NoMemory, Run};
use yd_units::Units;

/// A text unit, with its left origin.
#[derive(Clone, Copy)]
pub(crate) struct TextUnit {
    /// The UTF-16 unit.
    pub unit: u16,
    /// Its left origin.
    pub left: Option<Id>,
}

/// A half that is cut out, and what is to stand for it: `Store::free_half` makes it, and
/// `Store::tear_half` takes it.
#[derive(Drop)]
pub struct Torn {
    /// The id of the half.
    pub half: Id,
    /// U+FFFD.
    pub units: Units,
}

impl Store {
    /// The high half of which the unit with an id is the partner, if it is one.
    pub(crate) fn high_half(&self, low: Id) -> Option<Id>
        ensures found { IfSome result (λ high. HasPair self.now high low) }
        ensures none { IfNone result ((high : IdValue) → HasPair self.now high low → ⊥) }
    {
        self.is_sound();
        let Some(second) = self.text_unit(low) else {
            return None;
        };
        let Some(high) = second.left else {
            return None;
        };
        let Some(first) = self.text_unit(high) else {
            return None;
        };
        if is_next(high, low) && is_high(first.unit) && is_low(second.unit) {
            Some(high)
        } else {
            None
        }
    }

    /// The text unit with an id, if it is of a text.
    fn text_unit(&self, id: Id) -> Option<TextUnit>
        ensures found { IfSome result (λ text. HasText self.now id text) }
        ensures none { IfNone result ((text : TextUnit) → HasText self.now id text → ⊥) }
    {
        self.is_sound();
        let Some(found) = self.find(id) else {
            return None;
        };
        let Some(run) = self.run_of(found.place) else {
            return None;
        };
        let Some(unit) = text_at(&run.content, found.before) else {
            return None;
        };
        Some(TextUnit {
            unit,
            left: left_at(run, found.before),
        })
    }

    /// Cuts a half out, if there is one, and makes what is to stand for it.
    pub(crate) fn free(&mut self, half: Option<Id>) -> Result<Option<Torn>, NoMemory>
        requires { IfSome half (IsKnown self.old) }
        ensures freed { IfOk result (λ torn. IsFreed self.new half torn) }
        ensures units { KeepsUnits self.old self.new }
    {
        match half {
            None => Ok(None),
            Some(id) => {
                let torn = self.free_half(id)?;
                Ok(Some(torn))
            }
        }
    }

    /// Lets U+FFFD stand for a half, if there is one. It takes no memory.
    pub(crate) fn tear(&mut self, torn: Option<Torn>)
        requires { IsFreed self.old (half_of torn) torn }
        ensures maps { MapsUnits self.old self.new (torn_at (half_of torn)) }
        ensures placed { self.new.placed ≡ self.old.placed }
    {
        if let Some(half) = torn {
            self.tear_half(half);
        }
    }
}

/// The one clock is behind the other, and both are of one client.
fn is_next(id: Id, next: Id) -> bool
    ensures { IsTrue result ↔ (next ≡ later_id id 1) }
{
    id.client.0 == next.client.0 && id.clock < next.clock && next.clock - id.clock == 1
}

/// The unit is the first half of a pair.
fn is_high(unit: u16) -> bool
    ensures { IsTrue result ↔ IsHigh unit }
{
    0xD800 <= unit && unit <= 0xDBFF
}

/// The unit is the second half of a pair.
fn is_low(unit: u16) -> bool
    ensures { IsTrue result ↔ IsLow unit }
{
    0xDC00 <= unit && unit <= 0xDFFF
}

/// The text unit of a content behind so many others, if it is a text.
fn text_at(content: &Content, n: u64) -> Option<u16>
    ensures { result ≡ text_at (content_value content.now) n }
{
    match content {
        Content::Str(units) => units.unit(n),
        _ => None,
    }
}

/// The left origin of a run's unit behind so many others.
fn left_at(run: &Run, n: u64) -> Option<Id>
    requires { IsClock (run.now.id.clock + n) }
    ensures { result ≡ left_at run.now.id run.now.left n }
{
    if n == 0 {
        return run.left;
    }
    Some(Id {
        client: run.id.client,
        clock: run.id.clock + (n - 1),
    })
}
