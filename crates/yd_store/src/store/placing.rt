//! What is known of a place already, and is not looked up again.

ghost use Rattle.std.specs.Prelude.{◌≡◌, ◌<◌, ◌≤◌, ◌+◌, ◌-◌, ℕ, true, length, IfSome, IfOk, IfErr, OnOk, OnErr, IsOk};
ghost use Rattle.yd_ids.specs.Id.{IsClock};
ghost use Rattle.yd_words.specs.Member.{IsIn};
ghost use Rattle.yd_ops.specs.Value.{len_of};
ghost use Rattle.yd_ops.specs.View.{content_value, run_value};
ghost use Rattle.yd_scan.specs.Stretches.{stretch_at, IsNoLater, EndsLeft};
ghost use Rattle.yd_arena.specs.Arena.{runs_of, count_of, places_in, next_clock, HasUnit, CutsRun};
ghost use Rattle.yd_store.specs.Store.{spare_of, CanCount, IsKept, SplitsAt, IsKeptRight, AddsRun};
ghost use Rattle.yd_store.specs.Units.{KeepsUnits, AddsUnits};
ghost use Rattle.yd_store.specs.Integrating.{IsPlaceOf};

use crate::counted::counts;
use crate::fault::Unplaced;
use crate::parts::{is_sound, reserve_parts};
use crate::rights::{has_unit, kept_at, next_begun};
use crate::store::Store;
use yd_arena::{Found, Mark};
use yd_ids::Id;
use yd_ops::{NoMemory, Run};
use yd_scan::Stretch;

impl Store {
    /// Cuts a run in front of a unit that stands in it, and is not its first: see `split`.
    pub(crate) fn split_found(&mut self, id: Id, found: Found) -> Result<usize, NoMemory>
        requires has { HasUnit (runs_of self.old.placed) found.place found.before id }
        requires later { 0 < found.before }
        ensures begins { IfOk result (λ place. HasUnit (runs_of self.new.placed) place 0 id) }
        ensures done { OnOk result (SplitsAt self.old self.new id) }
        ensures cut { OnOk result (CutsRun self.old.placed self.new.placed found.place found.before) }
        ensures units { KeepsUnits self.old self.new }
        ensures unchanged { OnErr result (IsKept self.old self.new) }
    {
        is_sound(&self.arena);
        self.marks.reserve(1)?;
        let place = self
            .arena
            .cut_with(found.place, found.before, &mut self.contents)?;
        self.marks.cut(found.place);
        Ok(place)
    }

    /// How many units the run at a place has.
    pub(crate) fn len_at(&self, place: usize) -> u64
        requires { place < length (runs_of self.now.placed) }
        ensures { result ≡ (stretch_at (runs_of self.now.placed) place).len }
    {
        self.arena.lists().stretch(place).len
    }

    /// Adds a run where it is known which right origin counts: see `add_run`.
    pub(crate) fn add_kept(
        &mut self,
        run: Run,
        list: usize,
        after: Option<usize>,
        right: Option<Id>,
    ) -> Result<usize, Unplaced>
        requires list { list < count_of self.old.placed }
        requires after { IfSome after (λ p. IsIn p (places_in self.old.placed list)) }
        requires left { EndsLeft (runs_of self.old.placed) run.left after }
        requires right { IsNoLater (runs_of self.old.placed)
            (places_in self.old.placed list) run.right }
        requires kept { IsKeptRight self.old.placed list run.right right }
        requires next { run.id.clock ≡ next_clock self.old.placed run.id.client.0 }
        requires filled { 0 < len_of (content_value run.content) }
        requires fits { IsClock (run.id.clock + len_of (content_value run.content)) }
        ensures place { IfOk result (λ place. place ≡ length (runs_of self.old.placed)) }
        ensures done { OnOk result (AddsRun self.old self.new list (run_value run)) }
        ensures units { OnOk result (AddsUnits self.old self.new list (run_value run)) }
        ensures value_returned { IfErr result (λ fault. run_value fault.0 ≡ run_value run) }
        ensures unchanged { OnErr result (IsKept self.old self.new) }
        ensures spares { (client : ℕ) → spare_of self.old client ≤ spare_of self.new client + 1 }
        ensures succeeds { 0 < spare_of self.old run.id.client.0 →
            CanCount self.old list (run_value run) → IsOk result }
    {
        if !self.can_count(list, &run) {
            return Err(Unplaced(run));
        }
        let room = reserve_parts(
            &mut self.arena,
            &mut self.marks,
            &mut self.contents,
            run.id.client,
            1,
        );
        if room.is_err() {
            return Err(Unplaced(run));
        }
        let len = run.len();
        let mark = Mark {
            deleted: false,
            counted: counts(&run.content),
        };
        let place = self.arena.add_run(
            list,
            after,
            Stretch {
                id: run.id,
                len,
                left: run.left,
                right,
            },
        );
        self.marks.add(Some(list), len, mark);
        self.contents.add(Some(run));
        Ok(place)
    }

    /// The right origin, where it stands in a list. The place of its run is known, if there is one.
    pub(crate) fn right_in(
        &self,
        list: usize,
        right: Option<Id>,
        place: Option<usize>,
    ) -> Option<Id>
        requires list { list < count_of self.now.placed }
        requires place { IsPlaceOf self.now.placed right place }
        ensures { IsKeptRight self.now.placed list right result }
    {
        kept_at(&self.arena, list, right, place)
    }

    /// The place behind another in its list, where the run there begins with a unit.
    pub(crate) fn next_begun(&self, after: Option<usize>, id: Id) -> Option<usize>
        ensures begins { IfSome result (λ place. HasUnit (runs_of self.now.placed) place 0 id) }
    {
        next_begun(&self.arena, after, id)
    }

    /// Whether there is a run at a place, and it has a unit.
    pub(crate) fn has_unit(&self, place: usize, id: Id) -> bool
        ensures { result ≡ true → HasUnit (runs_of self.now.placed) place
            (id.clock - (stretch_at (runs_of self.now.placed) place).id.clock) id }
    {
        has_unit(&self.arena, place, id)
    }
}
