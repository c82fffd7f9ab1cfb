//! The origins of a unit in a list.

ghost use Rattle.std.specs.Prelude.{◌≡◌, true};
ghost use Rattle.yd_ops.specs.Received.{has_operation};
ghost use Rattle.yd_received.specs.Received.{listed_of};
ghost use Rattle.yd_honesty.specs.Judging.{IsKept, AreOrigins, left_in};

use yd_ids::Id;
use yd_received::{Entry, Received};

/// The left and the right origin of a unit in a list.
#[derive(Clone, Copy)]
pub struct Origins {
    pub left: Option<Id>,
    pub right: Option<Id>,
}

/// The origins of a unit in a list.
pub(crate) fn origins_of(received: &Received, id: Id) -> Origins
    requires kept { IsKept received.now }
    requires listed { has_operation (listed_of received.now) id ≡ true }
    ensures { AreOrigins received.now id result.left result.right }
{
    let entry = received.entries().get(received.entry_of(id));
    Origins {
        left: left_of(entry, id),
        right: entry.right,
    }
}

/// The left origin of a unit of an entry.
fn left_of(entry: Entry, id: Id) -> Option<Id>
    ensures { result ≡ left_in entry id }
{
    if id.clock <= entry.id.clock {
        return entry.left;
    }
    Some(Id {
        client: id.client,
        clock: id.clock - 1,
    })
}
