//! A span that is deleted, wherever runs begin and end.

ghost use Rattle.std.specs.Prelude.{◌≤◌, ◌+◌, OnOk, OnErr};
ghost use Rattle.yd_arena.specs.Arena.{next_clock};
ghost use Rattle.yd_store.specs.Units.{KeepsUnits};
ghost use Rattle.yd_store.specs.Deleting.{DeletesUnits};

use crate::store::Store;
use yd_ids::Span;
use yd_ops::NoMemory;

impl Store {
    /// Marks just the units of a span as deleted, all of which are held. Runs are cut at its ends
    /// first. Where it finds no memory, no unit is marked.
    pub fn delete(&mut self, span: Span) -> Result<(), NoMemory>
        requires held { span.clock + span.len ≤ next_clock self.old.placed span.client.0 }
        ensures done { OnOk result (DeletesUnits self.old self.new span) }
        ensures unchanged { OnErr result (KeepsUnits self.old self.new) }
    {
        self.part_span(span)?;
        self.is_sound();
        self.mark_deleted(span);
        Ok(())
    }
}
