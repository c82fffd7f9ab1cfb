//! Units that are told less in two steps: all that takes memory comes first, and then what cannot fail.

ghost use Rattle.std.specs.Prelude.{◌≡◌, ◌≤◌, ◌+◌, Some, IfOk, OnOk};
ghost use Rattle.yd_arena.specs.Arena.{runs_of, next_clock};
ghost use Rattle.yd_arena.specs.Marks.{IsBorder};
ghost use Rattle.yd_store.specs.Units.{KeepsUnits};
ghost use Rattle.yd_store.specs.Lowering.{number_of, lowered_in, MapsUnits};
ghost use Rattle.yd_store.specs.Halves.{IsKnown, IsFreed, torn_at};

use crate::halves::Torn;
use crate::level::Level;
use crate::store::Store;
use yd_ids::{Id, Span};
use yd_ops::NoMemory;

impl Store {
    /// Cuts runs at both ends of a span, all of whose units are held, so that `lower_parted` can tell
    /// them less. No unit changes. It takes memory for two runs at most; where it finds none, the
    /// first end may have been cut.
    pub fn part_span(&mut self, span: Span) -> Result<(), NoMemory>
        requires held { span.clock + span.len ≤ next_clock self.old.placed span.client.0 }
        ensures held { span.clock + span.len ≤ next_clock self.new.placed span.client.0 }
        ensures front { OnOk result (IsBorder (runs_of self.new.placed)
            span.client.0 span.clock) }
        ensures back { OnOk result (IsBorder (runs_of self.new.placed)
            span.client.0 (span.clock + span.len)) }
        ensures units { KeepsUnits self.old self.new }
    {
        // That the next clock is one says that the end does not overflow.
        let _ = self.next_clock(span.client);
        self.part_at(Id {
            client: span.client,
            clock: span.clock,
        })?;
        self.part_at(Id {
            client: span.client,
            clock: span.clock + span.len,
        })?;
        Ok(())
    }

    /// Cuts a half out, which is a unit of a text, so that it is a run of its own, and makes the
    /// U+FFFD that is to stand for it: see `tear_half`. No unit changes. It takes memory for two runs
    /// and one unit at most; where it finds none, one end of the half may have been cut.
    pub fn free_half(&mut self, half: Id) -> Result<Torn, NoMemory>
        requires { IsKnown self.old half }
        ensures freed { IfOk result (λ torn. IsFreed self.new (Some half) (Some torn)) }
        ensures units { KeepsUnits self.old self.new }
    {
        self.is_sound();
        self.part_at(half)?;
        self.part_behind(half)?;
        let units = self.replacement()?;
        Ok(Torn { half, units })
    }

    /// Tells the units of a span down to a level, all of which are held, where it parts no run: see
    /// `part_span`. Each stays at its place; what says less stays so, and no half outside the span
    /// changes. It takes a look-up for each run of the span, and no memory.
    pub fn lower_parted(&mut self, span: Span, level: Level)
        requires held { span.clock + span.len ≤ next_clock self.old.placed span.client.0 }
        requires front { IsBorder (runs_of self.old.placed) span.client.0 span.clock }
        requires back { IsBorder (runs_of self.old.placed) span.client.0 (span.clock + span.len) }
        ensures maps { MapsUnits self.old self.new (lowered_in span (number_of level)) }
        ensures placed { self.new.placed ≡ self.old.placed }
    {
        self.is_sound();
        self.lower_runs(span, level);
    }

    /// Lets U+FFFD stand for a half that is cut out: see `free_half`. It takes a look-up, and no
    /// memory.
    pub fn tear_half(&mut self, torn: Torn)
        requires { IsFreed self.old (Some torn.half) (Some torn) }
        ensures maps { MapsUnits self.old self.new (torn_at (Some torn.half)) }
        ensures placed { self.new.placed ≡ self.old.placed }
    {
        self.is_sound();
        let Some(found) = self.find(torn.half) else {
            unreachable!();
        };
        self.put_text(found.place, torn.units);
    }
}
