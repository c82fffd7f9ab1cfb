//! The units of a list, lent.

ghost use Rattle.std.specs.Prelude.{◌≡◌};
ghost use Rattle.yd_words.specs.Member.{IsIn};
ghost use Rattle.yd_ops.specs.Operation.{Operation};
ghost use Rattle.yd_ops.specs.ReceivedLaw.{ArePaired};
ghost use Rattle.yd_state.specs.Lent.{lent_units, units_left, last_unit, IsAround};
ghost use Rattle.yd_doc.specs.Kept.{received_of, own_document};

use crate::replica::Replica;
use yd_ids::Id;
use yd_ops::List;
use yd_state::ListView;

impl Replica {
    /// The units of a list in order, deleted ones too; lost ones are in no list. It takes a look-up
    /// by a hash, and copies no unit.
    pub fn list(&self, list: &List) -> ListView<'_>
        ensures units { units_left result ≡ lent_units (own_document self.now) list.now }
        ensures received { (o : Operation) → IsIn o ((own_document self.now).units list.now)
            → IsIn o (received_of self.now).operations }
        ensures whole { ArePaired (received_of self.now).operations }
    {
        self.state.list(list)
    }

    /// The units of a list in order from the run on that stands before the one with an id's unit, deleted
    /// ones too, and all of them where no run does. It takes a bisection, and a look-up by a hash.
    pub fn list_around(&self, list: &List, id: Id) -> ListView<'_>
        ensures around { IsAround id (lent_units (own_document self.now) list.now) (units_left result) }
        ensures received { (o : Operation) → IsIn o ((own_document self.now).units list.now)
            → IsIn o (received_of self.now).operations }
    {
        self.state.list_around(list, id)
    }

    /// The id of the unit that stands last in a list, deleted or not, and none where the list has no
    /// unit. It takes a look-up by a hash, as `list` does.
    pub fn last_of(&self, list: &List) -> Option<Id>
        ensures { result ≡ last_unit (own_document self.now) list.now }
    {
        self.state.last_of(list)
    }
}
