//! A span that is told less: its units are deleted or gone from here on.

ghost use Rattle.std.specs.Prelude.{◌≡◌, ◌≤◌, ◌+◌, IfSome, IfNone, OnOk, OnErr};
ghost use Rattle.yd_ids.specs.declared.id.Id.{Id as IdValue};
ghost use Rattle.yd_arena.specs.Arena.{next_clock};
ghost use Rattle.yd_store.specs.Units.{KeepsUnits};
ghost use Rattle.yd_store.specs.Lowering.{number_of, LowersUnits};
ghost use Rattle.yd_store.specs.Halves.{HasPair, first_id, end_id};

use crate::level::Level;
use crate::store::Store;
use yd_ids::{Id, Span};
use yd_ops::NoMemory;

impl Store {
    /// Spells the units of a span deleted, all of which are held: their neighbours and their lists
    /// stay, and so do marks and counts; what they hold is told no more. Gone ones stay so. A half
    /// outside the span whose partner is in it becomes U+FFFD. Runs are cut first: at the ends of the
    /// span, and so that such a half is a run of its own. Where it finds no memory, no unit changes.
    pub fn lower(&mut self, span: Span) -> Result<(), NoMemory>
        requires held { span.clock + span.len ≤ next_clock self.old.placed span.client.0 }
        ensures done { OnOk result (LowersUnits self.old self.new span 1) }
        ensures unchanged { OnErr result (KeepsUnits self.old self.new) }
    {
        self.lower_span(span, Level::Deleted)?;
        Ok(())
    }

    /// Lets the units of a span be gone, all of which are held and lost: their ids alone are told
    /// from here on. Halves outside the span and runs are treated as by `lower`. Where it finds no
    /// memory, no unit changes.
    pub fn empty_lost(&mut self, span: Span) -> Result<(), NoMemory>
        requires held { span.clock + span.len ≤ next_clock self.old.placed span.client.0 }
        ensures done { OnOk result (LowersUnits self.old self.new span 0) }
        ensures unchanged { OnErr result (KeepsUnits self.old self.new) }
    {
        self.lower_span(span, Level::Gone)?;
        Ok(())
    }

    /// Tells the units of a span down to a level.
    fn lower_span(&mut self, span: Span, level: Level) -> Result<(), NoMemory>
        requires held { span.clock + span.len ≤ next_clock self.old.placed span.client.0 }
        ensures done { OnOk result (LowersUnits self.old self.new span (number_of level)) }
        ensures unchanged { OnErr result (KeepsUnits self.old self.new) }
    {
        if span.len == 0 {
            return Ok(());
        }
        let front = self.half_before(span);
        let back = self.half_behind(span);
        // All that takes memory comes before the first unit changes.
        self.part_span(span)?;
        let before = self.free(front)?;
        let behind = self.free(back)?;
        self.tear(before);
        self.tear(behind);
        self.lower_parted(span, level);
        Ok(())
    }

    /// The half in front of a span whose partner is its first unit.
    fn half_before(&self, span: Span) -> Option<Id>
        ensures found { IfSome result (λ half. HasPair self.now half (first_id span)) }
        ensures none { IfNone result ((half : IdValue) →
            HasPair self.now half (first_id span) → ⊥) }
    {
        self.high_half(Id {
            client: span.client,
            clock: span.clock,
        })
    }

    /// The half behind a span whose partner is its last unit.
    fn half_behind(&self, span: Span) -> Option<Id>
        requires { span.clock + span.len ≤ next_clock self.now.placed span.client.0 }
        ensures found { IfSome result (λ half. (half ≡ end_id span) × (high : IdValue) ×
            HasPair self.now high half) }
        ensures none { IfNone result ((high : IdValue) →
            HasPair self.now high (end_id span) → ⊥) }
    {
        // That the next clock is one says that the end does not overflow.
        let _ = self.next_clock(span.client);
        let end = Id {
            client: span.client,
            clock: span.clock + span.len,
        };
        match self.high_half(end) {
            None => None,
            Some(_) => Some(end),
        }
    }
}
