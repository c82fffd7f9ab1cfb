//! Units that are taken out again, as where an update finds no memory for its last runs.

ghost use Rattle.std.specs.Prelude.{◌≡◌, ◌<◌, ◌≤◌, ℕ};
ghost use Rattle.yd_arena.specs.Arena.{runs_of, next_clock};
ghost use Rattle.yd_arena.specs.Marks.{IsBorder};
ghost use Rattle.yd_store.specs.Store.{spare_of};
ghost use Rattle.yd_store.specs.Taking.{TakesBack, AreDead};

use crate::store::Store;
use yd_ids::{Client, Span};

impl Store {
    /// Takes the client's units from a clock on out of the store and out of its lists, where no run
    /// goes over that clock. So a store has the operations again that it had before they were
    /// added; runs that were cut stay so, and the places of those taken out stay without units. It
    /// takes no memory, and no spare is lost.
    pub fn take_back(&mut self, client: Client, clock: u64)
        requires below { clock ≤ next_clock self.old.placed client.0 }
        requires border { IsBorder (runs_of self.old.placed) client.0 clock }
        ensures taken { TakesBack self.old self.new client.0 clock }
        ensures spares { (k : ℕ) → spare_of self.old k ≤ spare_of self.new k }
    {
        self.is_sound();
        let len = self.next_clock(client) - clock;
        self.mark_deleted(Span { client, clock, len });
        self.take_dead(client, clock);
    }

    /// The same, where their runs are marked as deleted.
    fn take_dead(&mut self, client: Client, clock: u64)
        requires below { clock ≤ next_clock self.old.placed client.0 }
        requires border { IsBorder (runs_of self.old.placed) client.0 clock }
        requires dead { AreDead self.old client.0 clock }
        ensures taken { TakesBack self.old self.new client.0 clock }
        ensures spares { (k : ℕ) → spare_of self.old k ≤ spare_of self.new k }
    {
        self.is_sound();
        let mut next = self.next_clock(client);
        while next > clock {
            next = self.take_last(client, clock);
        }
    }
}
