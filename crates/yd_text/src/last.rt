//! The unit that stands last in a list, and sets of one id.

ghost use Rattle.std.specs.Prelude.{◌≡◌, option_map, IfOk, IfSome};
ghost use Rattle.yd_shown.specs.Shown.{last_unit};
ghost use Rattle.yd_doc.specs.Kept.{own_document};
ghost use Rattle.yd_text.specs.Last.{told_of, set_of_one, IsUnitId};

use std::alloc::Global;
use yd_doc::{Replica, counted_len};
use yd_ids::{Id, IdSet, NoMemory, Span};
use yd_ops::List;

/// The unit that stands last in a list.
#[derive(Clone, Copy)]
pub(crate) struct LastUnit {
    /// Its id.
    pub id: Id,
    /// It is not deleted.
    pub live: bool,
    /// It is not deleted, and counts as a value.
    pub shown: bool,
}

/// The unit that stands last in a list, if it has any. It takes a look-up of the list, as
/// `Replica::list` does, and a few by bisection.
pub(crate) fn last_in(replica: &Replica, list: &List) -> Option<LastUnit>
    ensures last { result ≡ option_map (told_of (own_document replica.now))
        (last_unit ((own_document replica.now).units list.now)) }
    ensures in_range { IfSome result (λ unit. IsUnitId unit.id) }
{
    let Some(piece) = replica.list(list).last() else {
        return None;
    };
    Some(LastUnit {
        id: piece.id,
        live: !piece.deleted,
        shown: counted_len(&piece) == 1,
    })
}

/// The set of one id, or of none.
pub(crate) fn set_of(alloc: Global, id: Option<Id>) -> Result<IdSet, NoMemory>
    requires { IfSome id IsUnitId }
    ensures { IfOk result (λ ids. ids ≡ set_of_one id) }
{
    let mut ids = IdSet::new(alloc);
    if let Some(id) = id {
        ids.insert(Span {
            client: id.client,
            clock: id.clock,
            len: 1,
        })?;
    }
    Ok(ids)
}
