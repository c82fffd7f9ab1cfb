//! The last run is joined to the one before it in its list.

ghost use Rattle.std.specs.Prelude.{◌≡◌, ◌≤◌, ◌-◌, ℕ, true, false, length, IfSome, IfOk, OnErr};
ghost use Rattle.yd_arena.specs.Lists.{AreLists};
ghost use Rattle.yd_arena.specs.Arena.{runs_of};
ghost use Rattle.yd_arena.specs.Joining.{IsJoint};
ghost use Rattle.yd_arena.specs.Marks.{mark_at};
ghost use Rattle.yd_store.specs.Store.{spare_of, IsKept};
ghost use Rattle.yd_store.specs.Units.{KeepsUnits};
ghost use Rattle.yd_store.specs.Joining.{JoinsLast};

use crate::store::Store;
use yd_ops::NoMemory;

impl Store {
    /// Joins the last run to the one before it in its list, where it goes on where that ends, both are
    /// marked alike, and both are texts or deleted units. So what is typed letter by letter is one run.
    /// No unit changes: where the run is split there again, all is as before. It takes time and memory
    /// of the last run alone, and no spare is lost.
    pub fn join_last(&mut self) -> Result<bool, NoMemory>
        ensures joined { IfOk result (λ joined. joined ≡ true → JoinsLast self.old self.new) }
        ensures kept { IfOk result (λ joined. joined ≡ false → IsKept self.old self.new) }
        ensures unchanged { OnErr result (IsKept self.old self.new) }
        ensures units { KeepsUnits self.new self.old }
        ensures spares { (client : ℕ) → spare_of self.old client ≤ spare_of self.new client }
    {
        let Some(place) = self.joint() else {
            return Ok(false);
        };
        if !self.contents.join_last(place)? {
            return Ok(false);
        }
        self.marks.drop_last();
        self.arena.join_last(place);
        Ok(true)
    }

    /// The place before the last one in its list, where the last run goes on where the run there ends,
    /// and both are marked alike.
    fn joint(&self) -> Option<usize>
        ensures joint { IfSome result (λ place. IsJoint self.now.placed.linked place) }
        ensures alike { IfSome result (λ place. mark_at self.now.marks.rows place
            ≡ mark_at self.now.marks.rows (length (runs_of self.now.placed) - 1)) }
        ensures lists { AreLists self.now.placed.linked }
    {
        let place = self.arena.lists().joint()?;
        let run = self.marks.mark(place);
        let next = self.marks.mark(self.arena.lists().len() - 1);
        if run.deleted == next.deleted && run.counted == next.counted {
            Some(place)
        } else {
            None
        }
    }
}
