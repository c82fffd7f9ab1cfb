//! Runs in no list: gone ones, and those whose units are lost.

ghost use Rattle.std.specs.Prelude.{◌≡◌, ◌<◌, ◌≤◌, ◌+◌, ℕ, Some, None, length, IfOk, IfErr, OnOk, OnErr, IsOk};
ghost use Rattle.yd_ids.specs.Id.{IsClock};
ghost use Rattle.yd_ops.specs.Value.{len_of};
ghost use Rattle.yd_ops.specs.View.{content_value, run_value};
ghost use Rattle.yd_arena.specs.Arena.{runs_of, next_clock};
ghost use Rattle.yd_store.specs.Store.{spare_of, stretch_of, gone_stretch, IsKept, AddsOutside};
ghost use Rattle.yd_store.specs.Units.{AddsApart};

use crate::fault::Unplaced;
use crate::parts::reserve_parts;
use crate::store::Store;
use yd_arena::Mark;
use yd_ids::{Id, Span};
use yd_ops::{NoMemory, Run};
use yd_scan::Stretch;

impl Store {
    /// Adds units of which only the ids are known, the next ones of their client, in no list. They
    /// are deleted. The place of their run is answered. While the client has spare, this takes no
    /// memory.
    pub fn add_gone(&mut self, span: Span) -> Result<usize, NoMemory>
        requires next { span.clock ≡ next_clock self.old.placed span.client.0 }
        requires filled { 0 < span.len }
        requires fits { IsClock (span.clock + span.len) }
        ensures place { IfOk result (λ place. place ≡ length (runs_of self.old.placed)) }
        ensures done { OnOk result (AddsOutside self.old self.new (gone_stretch span) None) }
        ensures units { OnOk result (AddsApart self.old self.new (gone_stretch span) None) }
        ensures unchanged { OnErr result (IsKept self.old self.new) }
        ensures spares { (client : ℕ) → spare_of self.old client ≤ spare_of self.new client + 1 }
        ensures succeeds { 0 < spare_of self.old span.client.0 → IsOk result }
    {
        reserve_parts(
            &mut self.arena,
            &mut self.marks,
            &mut self.contents,
            span.client,
            1,
        )?;
        let place = self.arena.add_loose(Stretch {
            id: Id {
                client: span.client,
                clock: span.clock,
            },
            len: span.len,
            left: None,
            right: None,
        });
        self.marks.add(None, span.len, OUTSIDE);
        self.contents.add(None);
        Ok(place)
    }

    /// Adds the next run of its client in no list, as one whose units are lost. They are deleted.
    /// Its place is answered. While the client has spare, this takes no memory; where it finds
    /// none, the run comes back, and nothing has changed.
    pub fn add_lost(&mut self, run: Run) -> Result<usize, Unplaced>
        requires next { run.id.clock ≡ next_clock self.old.placed run.id.client.0 }
        requires filled { 0 < len_of (content_value run.content) }
        requires fits { IsClock (run.id.clock + len_of (content_value run.content)) }
        ensures place { IfOk result (λ place. place ≡ length (runs_of self.old.placed)) }
        ensures done { OnOk result (AddsOutside self.old self.new
            (stretch_of (run_value run) None) (Some (run_value run))) }
        ensures units { OnOk result (AddsApart self.old self.new
            (stretch_of (run_value run) None) (Some (run_value run))) }
        ensures value_returned { IfErr result (λ fault. run_value fault.0 ≡ run_value run) }
        ensures unchanged { OnErr result (IsKept self.old self.new) }
        ensures spares { (client : ℕ) → spare_of self.old client ≤ spare_of self.new client + 1 }
        ensures succeeds { 0 < spare_of self.old run.id.client.0 → IsOk result }
    {
        let room = reserve_parts(
            &mut self.arena,
            &mut self.marks,
            &mut self.contents,
            run.id.client,
            1,
        );
        if room.is_err() {
            return Err(Unplaced(run));
        }
        let len = run.len();
        let place = self.arena.add_loose(Stretch {
            id: run.id,
            len,
            left: run.left,
            right: None,
        });
        self.marks.add(None, len, OUTSIDE);
        self.contents.add(Some(run));
        Ok(place)
    }
}

/// The mark of units in no list.
const OUTSIDE: Mark = Mark {
    deleted: true,
    counted: false,
};
