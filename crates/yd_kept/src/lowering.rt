//! Units that are told less in two steps, in a store whose lists have names.

ghost use Rattle.std.specs.Prelude.{◌≡◌, ◌≤◌, ◌+◌, Some, IfOk, OnOk};
ghost use Rattle.yd_arena.specs.Arena.{next_clock};
ghost use Rattle.yd_store.specs.Units.{KeepsUnits};
ghost use Rattle.yd_store.specs.Lowering.{number_of, lowered_in, MapsUnits};
ghost use Rattle.yd_store.specs.Halves.{IsKnown, IsFreed, torn_at};
ghost use Rattle.yd_kept.specs.Kept.{StaysFilled, KeepsHeld};
ghost use Rattle.yd_kept.specs.Marking.{IsParted};

use crate::kept::Kept;
use yd_ids::{Id, Span};
use yd_ops::NoMemory;
use yd_store::{Level, Torn};

impl Kept {
    /// Cuts runs at both ends of a span, all of whose units are held, so that `lower_parted` can tell
    /// them less: see `Store::part_span`. Where it finds no memory, no unit has changed either.
    pub fn part_span(&mut self, span: Span) -> Result<(), NoMemory>
        requires held { span.clock + span.len ≤ next_clock self.old.store.placed span.client.0 }
        ensures parted { OnOk result (IsParted self.new.store span) }
        ensures units { KeepsUnits self.old.store self.new.store }
        ensures kept { KeepsHeld self.old self.new }
        ensures names { self.new.names ≡ self.old.names }
    {
        self.store.part_span(span)
    }

    /// Cuts a half out, which is a unit of a text, and makes the U+FFFD that is to stand for it: see
    /// `Store::free_half`. Where it finds no memory, no unit has changed either.
    pub fn free_half(&mut self, half: Id) -> Result<Torn, NoMemory>
        requires { IsKnown self.old.store half }
        ensures freed { IfOk result (λ torn. IsFreed self.new.store (Some half) (Some torn)) }
        ensures units { KeepsUnits self.old.store self.new.store }
        ensures kept { KeepsHeld self.old self.new }
        ensures names { self.new.names ≡ self.old.names }
    {
        self.store.free_half(half)
    }

    /// Tells the units of a span down to a level, all of which are held, where it parts no run: see
    /// `part_span`. Each stays at its place, and no half outside the span changes. It takes a look-up
    /// for each run of the span, and no memory.
    pub fn lower_parted(&mut self, span: Span, level: Level)
        requires held { span.clock + span.len ≤ next_clock self.old.store.placed span.client.0 }
        requires parted { IsParted self.old.store span }
        ensures maps { MapsUnits self.old.store self.new.store
            (lowered_in span (number_of level)) }
        ensures placed { self.new.store.placed ≡ self.old.store.placed }
        ensures filled { StaysFilled self.old self.new }
        ensures names { self.new.names ≡ self.old.names }
    {
        self.store.lower_parted(span, level);
    }

    /// Lets U+FFFD stand for a half that is cut out: see `free_half`. It takes a look-up, and no
    /// memory.
    pub fn tear_half(&mut self, torn: Torn)
        requires { IsFreed self.old.store (Some torn.half) (Some torn) }
        ensures maps { MapsUnits self.old.store self.new.store (torn_at (Some torn.half)) }
        ensures placed { self.new.store.placed ≡ self.old.store.placed }
        ensures filled { StaysFilled self.old self.new }
        ensures names { self.new.names ≡ self.old.names }
    {
        self.store.tear_half(torn);
    }
}
