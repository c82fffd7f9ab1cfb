//! The unit that stands last in a list.

ghost use Rattle.std.specs.Prelude.{◌≡◌, ◌<◌, ◌+◌, ◌-◌};
ghost use Rattle.yd_ids.specs.Id.{IsClock};
ghost use Rattle.yd_origins.specs.Deleted.{last_of};
ghost use Rattle.yd_ops.specs.Operation.{later_id};
ghost use Rattle.yd_meaning.specs.Document.{Document};
ghost use Rattle.yd_meaning.specs.Own.{ids_in};
ghost use Rattle.yd_listing.specs.Falling.{IsTold};
ghost use Rattle.yd_listing.specs.Listing.{Tells};

use crate::last_run;
use yd_ids::Id;
use yd_kept::Kept;
use yd_ops::List;

/// The id of the unit that stands last in the list with a name, deleted or not, and none where the
/// list has no unit. It takes a look-up by a hash.
pub fn last_of(kept: &Kept, name: &List) -> Option<Id>
    requires { IsTold kept.now }
    ensures { (document : Document) → Tells kept.now document →
        result ≡ last_of (ids_in document name.now) }
{
    let number = kept.number_of(name)?;
    let run = last_run(kept.store(), number)?;
    Some(last_id(run.id, run.len))
}

/// The last of so many ids in a row.
fn last_id(first: Id, len: u64) -> Id
    requires some { 0 < len }
    requires within { IsClock (first.clock + len) }
    ensures { result ≡ later_id first (len - 1) }
{
    Id {
        client: first.client,
        clock: first.clock + (len - 1),
    }
}
