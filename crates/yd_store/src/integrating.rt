//! A run that goes into a list by its origins alone (Yjs 13, `integrate`).

ghost use Rattle.std.specs.Prelude.{◌≡◌, ◌<◌, ◌+◌, Some, true, false, IfSome, IfOk, IfErr, OnOk, OnErr};
ghost use Rattle.yd_ops.specs.View.{run_value};
ghost use Rattle.yd_arena.specs.Arena.{runs_of, count_of, next_clock, HasUnit};
ghost use Rattle.yd_store.specs.Units.{KeepsUnits, AddsUnits};
ghost use Rattle.yd_store.specs.Integrating.{IsBorderAt, IsBorderBehind, IsPlaceOf, IsReady, Integrates};

use crate::fault::Unplaced;
use crate::store::Store;
use yd_arena::Found;
use yd_ids::Id;
use yd_ops::{NoMemory, Run};

/// The greatest clock.
const LAST_CLOCK: u64 = 9007199254740991;

/// The places of the runs with a left and a right origin, where there are such runs.
#[derive(Clone, Copy, Debug)]
struct Origins {
    left: Option<usize>,
    right: Option<usize>,
}

impl Store {
    /// Adds the next run of its client to a list, live, where the integration scan puts it. Its
    /// left origin is absent or stands in the list. Runs are cut first: behind its left origin, and
    /// in front of its right one, if that is held. Its place is answered. Where it finds no memory,
    /// the run comes back, and no unit has changed.
    pub fn integrate(&mut self, run: Run, list: usize) -> Result<usize, Unplaced>
        requires list { list < count_of self.old.placed }
        requires ready { IsReady self.old list (run_value run) }
        ensures begins { IfOk result (λ place. HasUnit (runs_of self.new.placed) place 0 run.id) }
        ensures done { OnOk result (Integrates self.old self.new list (run_value run)) }
        ensures units { OnOk result (AddsUnits self.old self.new list (run_value run)) }
        ensures value_returned { IfErr result (λ fault. run_value fault.0 ≡ run_value run) }
        ensures unchanged { OnErr result (KeepsUnits self.old self.new) }
    {
        self.is_sound();
        let Ok(origins) = self.part_origins(run.left, run.right) else {
            return Err(Unplaced(run));
        };
        self.is_sound();
        let right = self.right_in(list, run.right, origins.right);
        self.add_kept(run, list, origins.left, right)
    }

    /// Whether a run can go into a list: it is not empty, its clocks are the next ones of its
    /// client, and its left origin is absent or stands in the list.
    pub fn can_integrate(&self, run: &Run, list: usize) -> bool
        requires { list < count_of self.now.placed }
        ensures ready { result ≡ true → IsReady self.now list (run_value run.now) }
        ensures other { result ≡ false → IsReady self.now list (run_value run.now) → ⊥ }
    {
        let clock = self.next_clock(run.id.client);
        if run.id.clock != clock || run.len() == 0 || run.len() > LAST_CLOCK - clock {
            return false;
        }
        match run.left {
            None => true,
            Some(id) => self.stands_in(list, id),
        }
    }

    /// Cuts runs behind a left origin and in front of a right one, and answers where they stand then.
    fn part_origins(&mut self, left: Option<Id>, right: Option<Id>) -> Result<Origins, NoMemory>
        requires { IfSome left (λ id. id.clock < next_clock self.old.placed id.client.0) }
        ensures left_place { IfOk result (λ at. IsPlaceOf self.new.placed left at.left) }
        ensures right_place { IfOk result (λ at. IsPlaceOf self.new.placed right at.right) }
        ensures right { OnOk result (IfSome right (IsBorderAt self.new)) }
        ensures left { OnOk result (IfSome left (IsBorderBehind self.new)) }
        ensures units { KeepsUnits self.old self.new }
    {
        let after = self.part_left(left)?;
        self.is_sound();
        let Some(id) = right else {
            return Ok(Origins {
                left: after,
                right: None,
            });
        };
        // The right origin mostly stands behind the left one still, and is not looked up then.
        if let Some(place) = self.next_begun(after, id) {
            return Ok(Origins {
                left: after,
                right: Some(place),
            });
        }
        let place = self.part_front(id)?;
        Ok(Origins {
            left: self.place_of(left, after),
            right: place,
        })
    }

    /// Cuts a run behind a left origin, and answers where it stands then.
    fn part_left(&mut self, left: Option<Id>) -> Result<Option<usize>, NoMemory>
        requires { IfSome left (λ id. id.clock < next_clock self.old.placed id.client.0) }
        ensures place { IfOk result (IsPlaceOf self.new.placed left) }
        ensures border { OnOk result (IfSome left (IsBorderBehind self.new)) }
        ensures units { KeepsUnits self.old self.new }
    {
        let Some(id) = left else {
            return Ok(None);
        };
        let place = self.part_behind(id)?;
        Ok(Some(place))
    }

    /// Lets no run go over the front of a unit, so that a deletion may begin or end there. The unit
    /// need not be held. No unit changes, and nothing is said of spare after it.
    pub fn part_at(&mut self, id: Id) -> Result<(), NoMemory>
        ensures border { OnOk result (IsBorderAt self.new id) }
        ensures units { KeepsUnits self.old self.new }
    {
        self.part_front(id)?;
        Ok(())
    }

    /// The same, and answers the place of the run that begins with the unit then, if it is held.
    fn part_front(&mut self, id: Id) -> Result<Option<usize>, NoMemory>
        ensures place { IfOk result (IsPlaceOf self.new.placed (Some id)) }
        ensures border { OnOk result (IsBorderAt self.new id) }
        ensures units { KeepsUnits self.old self.new }
    {
        self.is_sound();
        let Some(found) = self.find(id) else {
            return Ok(None);
        };
        if found.before == 0 {
            return Ok(Some(found.place));
        }
        let place = self.split_found(id, found)?;
        self.is_sound();
        Ok(Some(place))
    }

    /// Lets no run go over the end of a unit, where it is held, and answers where it stands then.
    pub(crate) fn part_behind(&mut self, id: Id) -> Result<usize, NoMemory>
        requires { id.clock < next_clock self.old.placed id.client.0 }
        ensures place { IfOk result (λ place. IsPlaceOf self.new.placed (Some id) (Some place)) }
        ensures border { OnOk result (IsBorderBehind self.new id) }
        ensures units { KeepsUnits self.old self.new }
    {
        self.is_sound();
        let Some(found) = self.find(id) else {
            unreachable!();
        };
        let before = found.before + 1;
        if before == self.len_at(found.place) {
            return Ok(found.place);
        }
        let next = Id {
            client: id.client,
            clock: id.clock + 1,
        };
        let place = found.place;
        self.split_found(next, Found { place, before })?;
        self.is_sound();
        Ok(place)
    }

    /// The place of the run with a unit, if there is one: mostly the one that it had before a cut.
    fn place_of(&self, id: Option<Id>, before: Option<usize>) -> Option<usize>
        ensures { IsPlaceOf self.now.placed id result }
    {
        let id = id?;
        if let Some(place) = before
            && self.has_unit(place, id)
        {
            return Some(place);
        }
        let found = self.find(id)?;
        Some(found.place)
    }
}
