//! What runs tell, changed where they stand.

ghost use Rattle.std.specs.Prelude.{◌≡◌, ◌<◌, ◌≤◌, ◌+◌, ◌∷◌, [], ℕ, length, slice_set, IfOk};
ghost use Rattle.yd_scan.specs.Stretches.{stretch_at};
ghost use Rattle.yd_arena.specs.Arena.{runs_of, next_clock};
ghost use Rattle.yd_arena.specs.Marks.{IsBorder};
ghost use Rattle.yd_store.specs.Contents.{told_of, run_at};
ghost use Rattle.yd_store.specs.Store.{spare_of};
ghost use Rattle.yd_store.specs.Lowering.{LowersSpan};
ghost use Rattle.yd_store.specs.Halves.{HoldsText, told_as};

use crate::level::Level;
use crate::store::Store;
use yd_ids::Span;
use yd_ops::NoMemory;
use yd_units::Units;

impl Store {
    /// Tells the units of a span down to a level, run by run, where it parts no run. It takes no
    /// memory.
    pub(crate) fn lower_runs(&mut self, span: Span, level: Level)
        requires held { span.clock + span.len ≤ next_clock self.old.placed span.client.0 }
        requires front { IsBorder (runs_of self.old.placed) span.client.0 span.clock }
        requires back { IsBorder (runs_of self.old.placed) span.client.0 (span.clock + span.len) }
        ensures lowered { LowersSpan (runs_of self.old.placed) level
            (told_of self.old.contents) (told_of self.new.contents) span }
        ensures placed { self.new.placed ≡ self.old.placed }
        ensures marks { self.new.marks ≡ self.old.marks }
        ensures spare { (client : ℕ) → spare_of self.new client ≡ spare_of self.old client }
    {
        self.contents.lower(&self.arena, span, level);
    }

    /// U+FFFD, in memory of its own.
    pub(crate) fn replacement(&self) -> Result<Units, NoMemory>
        ensures { IfOk result (λ units. units ≡ 0xFFFD ∷ []) }
    {
        self.contents.replacement()
    }

    /// Lets a run that is a text of one unit hold another, if it is told. It takes no memory.
    pub(crate) fn put_text(&mut self, place: usize, units: Units)
        requires place { place < length (runs_of self.old.placed) }
        requires alone { (stretch_at (runs_of self.old.placed) place).len ≡ 1 }
        requires one { length units ≡ 1 }
        requires text { HoldsText (run_at (told_of self.old.contents) place) }
        ensures told { told_of self.new.contents ≡ slice_set (told_of self.old.contents) place
            (told_as units (run_at (told_of self.old.contents) place)) }
        ensures placed { self.new.placed ≡ self.old.placed }
        ensures marks { self.new.marks ≡ self.old.marks }
    {
        self.contents.put_text(place, units);
    }
}
