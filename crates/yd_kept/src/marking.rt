//! The ids of a set, deleted at once.

ghost use Rattle.std.specs.Prelude.{◌≡◌, OnOk};
ghost use Rattle.yd_ids.specs.Id.{IsSpan};
ghost use Rattle.yd_arena.specs.Arena.{count_of};
ghost use Rattle.yd_store.specs.Units.{KeepsUnits};
ghost use Rattle.yd_kept.specs.Kept.{KeepsHeld};
ghost use Rattle.yd_kept.specs.Marking.{AreHeld, IsParted, AreParted, MarksUnits, MarksEach};

use crate::kept::Kept;
use yd_ids::{Id, IdSet, Span};
use yd_ops::NoMemory;
use yd_store::Store;

impl Kept {
    /// Parts runs at the ends of the set's spans, so that `mark_each` can mark them. It takes two
    /// look-ups for each span. Where it finds no memory, no unit has changed either.
    pub fn part_each(&mut self, ids: &IdSet) -> Result<(), NoMemory>
        ensures parted { OnOk result (AreParted self.new.store ids.now) }
        ensures kept { KeepsHeld self.old self.new }
        ensures names { self.new.names ≡ self.old.names }
        ensures count { count_of self.new.store.placed ≡ count_of self.old.store.placed }
    {
        part_all(&mut self.store, ids)?;
        Ok(())
    }

    /// Deletes just the ids of a set, all of which are held, where runs are parted at the ends of
    /// its spans: see `part_each`. What was deleted stays so. It takes a look-up for each span and a
    /// few steps for each of its runs, and no memory.
    pub fn mark_each(&mut self, ids: &IdSet)
        requires held { AreHeld self.old.store ids.now }
        requires parted { AreParted self.old.store ids.now }
        ensures { MarksEach self.old self.new ids.now }
    {
        mark_all(&mut self.store, ids);
    }
}

/// Parts runs at the ends of spans.
fn part_all(store: &mut Store, ids: &IdSet) -> Result<(), NoMemory>
    ensures parted { OnOk result (AreParted store.new ids.now) }
    ensures units { KeepsUnits store.old store.new }
{
    for span in ids.spans() {
        part_span(store, span)?;
    }
    Ok(())
}

/// Parts runs at both ends of a span.
fn part_span(store: &mut Store, span: Span) -> Result<(), NoMemory>
    requires { IsSpan span }
    ensures parted { OnOk result (IsParted store.new span) }
    ensures units { KeepsUnits store.old store.new }
{
    store.part_at(Id {
        client: span.client,
        clock: span.clock,
    })?;
    store.part_at(Id {
        client: span.client,
        clock: span.clock + span.len,
    })?;
    Ok(())
}

/// Marks the runs of spans.
fn mark_all(store: &mut Store, ids: &IdSet)
    requires held { AreHeld store.old ids.now }
    requires parted { AreParted store.old ids.now }
    ensures { MarksUnits store.old store.new ids.now }
{
    // That the index is sound says which units the runs of a span have.
    store.is_sound();
    for span in ids.spans() {
        store.mark_deleted(span);
    }
}
