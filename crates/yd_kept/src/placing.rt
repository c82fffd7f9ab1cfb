//! The list that a run goes into.

ghost use Rattle.std.specs.Prelude.{◌≡◌, ◌<◌, ℕ, Some, slice_get, IfOk};
ghost use Rattle.yd_ops.specs.Valid.{CarriesList};
ghost use Rattle.yd_ops.specs.View.{run_value};
ghost use Rattle.yd_arena.specs.Arena.{count_of};
ghost use Rattle.yd_store.specs.Store.{StandsIn};
ghost use Rattle.yd_kept.specs.Kept.{telling_origin, ComesNextOfSome, IsListFor, KeepsHeld};

use crate::kept::Kept;
use yd_ids::Id;
use yd_ops::{List, NoMemory, Run};

impl Kept {
    /// The number of the list that a run goes into, which comes next. Where its name is new, the
    /// list is made.
    pub(crate) fn list_for(&mut self, run: &Run) -> Result<usize, NoMemory>
        requires carries { CarriesList run.now.left run.now.right run.now.list }
        requires comes { ComesNextOfSome self.old (run_value run.now) }
        ensures list { IfOk result (λ list. IsListFor self.new (run_value run.now) list) }
        ensures kept { KeepsHeld self.old self.new }
    {
        // That the store is sound says where the origin stands.
        let _ = self.store();
        if let Some(origin) = origin_of(run) {
            let Some(list) = self.list_of(origin) else {
                unreachable!();
            };
            return Ok(list);
        }
        let Some(name) = &run.list else {
            unreachable!();
        };
        let list = self.list_named(name)?;
        Ok(list)
    }

    /// The number of the list in which a unit stands.
    fn list_of(&self, id: Id) -> Option<usize>
        ensures { (list : ℕ) → list < count_of self.now.store.placed →
            StandsIn self.now.store.placed list id → result ≡ Some list }
    {
        self.store.is_sound();
        let Some(found) = self.store.find(id) else {
            return None;
        };
        self.store.list_of(found.place)
    }

    /// The number of the list with a name, which is made where there is none. Where it finds no
    /// memory, there is no new list.
    fn list_named(&mut self, name: &List) -> Result<usize, NoMemory>
        ensures named { IfOk result (λ list. slice_get self.new.names list ≡ Some name.now) }
        ensures kept { KeepsHeld self.old self.new }
    {
        if let Some(number) = self.names.number_of(name) {
            return Ok(number);
        }
        let count = self.names.len();
        self.names.push(name.copy()?)?;
        match self.store.add_list() {
            Ok(list) => Ok(list),
            Err(fault) => {
                self.names.truncate(count);
                Err(fault)
            }
        }
    }
}

/// The origin that says which list a run is of.
fn origin_of(run: &Run) -> Option<Id>
    ensures { result ≡ telling_origin run.now.left run.now.right }
{
    match run.left {
        Some(left) => Some(left),
        None => run.right,
    }
}
