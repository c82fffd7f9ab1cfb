//! The unit before another one in a list.

ghost use Rattle.std.specs.Prelude.{◌≡◌, ◌<◌, ◌+◌, ◌≤◌, None, IfSome, Decides};
ghost use Rattle.yd_ids.specs.Id.{IsId};
ghost use Rattle.yd_editing.specs.TextEdit.{stands_before};
ghost use Rattle.yd_state.specs.Lent.{IsWithin};
ghost use Rattle.yd_doc.specs.Kept.{own_document};
ghost use Rattle.yd_text.specs.Rows.{last_in_row};

use yd_doc::{Replica, RunView};
use yd_ids::Id;
use yd_ops::List;

/// The unit that stands before another one, deleted or not, and none at the front. It takes time as
/// reading the list by pieces does, up to that unit.
pub(crate) fn unit_before(replica: &Replica, list: &List, id: Id) -> Option<Id>
    ensures unit { result ≡ stands_before id None ((own_document replica.now).units list.now) }
    ensures in_range { IfSome result IsId }
{
    let mut view = replica.list(list);
    let mut before = None;
    while let Some(piece) = view.next() {
        if has_id(&piece, id) {
            return before_place(&piece, id.clock - piece.id.clock, before);
        }
        before = before_place(&piece, piece.len, before);
    }
    before
}

/// The id is one of the piece's.
pub(crate) fn has_id(piece: &RunView<'_>, id: Id) -> bool
    ensures { Decides result ((id.client.0 ≡ piece.now.id.client.0)
        × (piece.now.id.clock ≤ id.clock)
        × (id.clock < piece.now.id.clock + piece.now.len)) }
{
    id.client.0 == piece.id.client.0
        && piece.id.clock <= id.clock
        && id.clock - piece.id.clock < piece.len
}

/// The unit before the one so many behind the first of a piece, where this one is before the piece.
fn before_place(piece: &RunView<'_>, skipped: u64, before: Option<Id>) -> Option<Id>
    requires within { IsWithin piece.now }
    requires inside { skipped ≤ piece.now.len }
    requires in_range { IfSome before IsId }
    ensures unit { result ≡ last_in_row before piece.now.id skipped }
    ensures in_range { IfSome result IsId }
{
    if skipped == 0 {
        return before;
    }
    Some(Id {
        client: piece.id.client,
        clock: piece.id.clock + (skipped - 1),
    })
}
