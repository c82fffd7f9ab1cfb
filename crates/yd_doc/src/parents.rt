//! The lists of a parent, found together.

ghost use Rattle.std.specs.Prelude.{◌≡◌, IfOk};
ghost use Rattle.yd_words.specs.Member.{IsIn};
ghost use Rattle.yd_ops.specs.Operation.{Operation};
ghost use Rattle.yd_ops.specs.ReceivedLaw.{ArePaired};
ghost use Rattle.yd_shown.specs.Shown.{own_list as own_name};
ghost use Rattle.yd_state.specs.Lent.{lent_units, units_left};
ghost use Rattle.yd_doc.specs.Kept.{received_of, own_document};

use crate::fault::NoMemory;
use crate::replica::Replica;
use std::alloc::Global;
use yd_any::Text;
use yd_listing::own_list;
use yd_ops::Parent;
use yd_state::ListView;

/// What a parent has: units under keys, and units in its own list, which is under none.
#[derive(Drop)]
pub struct ParentLists<'a> {
    /// The keys under which it has units, deleted or not, in the order of their bytes.
    pub keys: Vec<Text>,
    /// The units of its own list in order, deleted ones too.
    pub own: ListView<'a>,
}

impl Replica {
    /// The keys of a parent, as `keys` gives them, and the units of its own list, as `list` lends
    /// them. It takes one look-up by a hash for all, and looks at the lists of this parent alone.
    pub fn lists_of(&self, alloc: Global, parent: &Parent) -> Result<ParentLists<'_>, NoMemory>
        ensures keys { IfOk result (λ lists.
            lists.keys.items ≡ (own_document self.now).keys parent.now) }
        ensures units { IfOk result (λ lists. units_left lists.own
            ≡ lent_units (own_document self.now) (own_name parent.now)) }
        ensures received { (o : Operation)
            → IsIn o ((own_document self.now).units (own_name parent.now))
            → IsIn o (received_of self.now).operations }
        ensures whole { ArePaired (received_of self.now).operations }
    {
        let kept = self.state.kept();
        let last = kept.last_of(parent, None);
        let keys = self.keys_from(alloc, kept, parent, last)?;
        Ok(ParentLists {
            keys,
            own: ListView::of_lent(own_list(kept, parent, last)),
        })
    }
}
