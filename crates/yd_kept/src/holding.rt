//! Runs that become held.

ghost use Rattle.std.specs.Prelude.{◌≡◌, ◌<◌, ◌+◌, Some, None, IfErr, OnOk, OnErr};
ghost use Rattle.yd_ids.specs.Id.{IsClock};
ghost use Rattle.yd_ops.specs.Valid.{CarriesList};
ghost use Rattle.yd_ops.specs.Value.{len_of};
ghost use Rattle.yd_ops.specs.View.{content_value, run_value};
ghost use Rattle.yd_arena.specs.Arena.{next_clock};
ghost use Rattle.yd_store.specs.Store.{stretch_of, gone_stretch, IsKept};
ghost use Rattle.yd_store.specs.Units.{AddsApart};
ghost use Rattle.yd_kept.specs.Kept.{ComesNextOfSome, KeepsHeld, HoldsRun, FillsByLost};

use crate::kept::Kept;
use yd_ids::Span;
use yd_ops::{NoMemory, Run};
use yd_store::Unplaced;

impl Kept {
    /// Puts a run that comes next into the list of its operations, where the integration scan puts
    /// it. Where it finds no memory, the run comes back, and no unit has changed.
    pub fn hold(&mut self, run: Run) -> Result<(), Unplaced>
        requires comes { ComesNextOfSome self.old (run_value run) }
        requires carries { CarriesList run.left run.right run.list }
        requires fits { IsClock (run.id.clock + len_of (content_value run.content)) }
        ensures done { OnOk result (HoldsRun self.old self.new (run_value run)) }
        ensures value_returned { IfErr result (λ fault. run_value fault.0 ≡ run_value run) }
        ensures unchanged { OnErr result (KeepsHeld self.old self.new) }
    {
        let Ok(list) = self.list_for(&run) else {
            return Err(Unplaced(run));
        };
        self.store.is_sound();
        self.store.integrate(run, list)?;
        Ok(())
    }

    /// Puts the next run of its client in no list, as one whose units are lost. They are deleted.
    /// Where it finds no memory, the run comes back, and nothing has changed.
    pub fn hold_lost(&mut self, run: Run) -> Result<(), Unplaced>
        requires next { run.id.clock ≡ next_clock self.old.store.placed run.id.client.0 }
        requires some { 0 < len_of (content_value run.content) }
        requires fits { IsClock (run.id.clock + len_of (content_value run.content)) }
        ensures done { OnOk result (AddsApart self.old.store self.new.store
            (stretch_of (run_value run) None) (Some (run_value run))) }
        ensures filled { OnOk result (FillsByLost self.old self.new
            (stretch_of (run_value run) None)) }
        ensures names { self.new.names ≡ self.old.names }
        ensures value_returned { IfErr result (λ fault. run_value fault.0 ≡ run_value run) }
        ensures unchanged { OnErr result (IsKept self.old.store self.new.store) }
    {
        self.store.is_sound();
        self.store.add_lost(run)?;
        Ok(())
    }

    /// Puts the next units of a client in no list, of which only the ids are known. They are
    /// deleted. Where it finds no memory, nothing has changed.
    pub fn hold_gone(&mut self, span: Span) -> Result<(), NoMemory>
        requires next { span.clock ≡ next_clock self.old.store.placed span.client.0 }
        requires some { 0 < span.len }
        requires fits { IsClock (span.clock + span.len) }
        ensures done { OnOk result (AddsApart self.old.store self.new.store
            (gone_stretch span) None) }
        ensures filled { OnOk result (FillsByLost self.old self.new (gone_stretch span)) }
        ensures names { self.new.names ≡ self.old.names }
        ensures unchanged { OnErr result (IsKept self.old.store self.new.store) }
    {
        self.store.is_sound();
        self.store.add_gone(span)?;
        Ok(())
    }
}
