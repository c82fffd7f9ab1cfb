//! What is taken back, and joined.

ghost use Rattle.std.specs.Prelude.{◌≡◌, ◌≤◌};
ghost use Rattle.yd_arena.specs.Arena.{runs_of, next_clock};
ghost use Rattle.yd_arena.specs.Marks.{IsBorder};
ghost use Rattle.yd_store.specs.Taking.{TakesBack};
ghost use Rattle.yd_kept.specs.Kept.{JoinsHeld};

use crate::kept::Kept;
use yd_ids::Client;

impl Kept {
    /// Takes the client's units from a clock on out again, where no run goes over that clock. Lists
    /// and their names stay. It takes no memory.
    pub fn go_back(&mut self, client: Client, clock: u64)
        requires below { clock ≤ next_clock self.old.store.placed client.0 }
        requires border { IsBorder (runs_of self.old.store.placed) client.0 clock }
        ensures taken { TakesBack self.old.store self.new.store client.0 clock }
        ensures names { self.new.names ≡ self.old.names }
    {
        self.store.take_back(client, clock);
    }

    /// Joins the last run to the one before it in its list, where both can be one: see
    /// `Store::join_last`. No unit changes. Where it finds no memory, both stay as they are.
    pub fn join_last(&mut self)
        ensures { JoinsHeld self.old self.new }
    {
        let _ = self.store.join_last();
    }
}
