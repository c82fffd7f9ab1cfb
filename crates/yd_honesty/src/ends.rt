//! Up to where the ids of a list have one of them in their past.

ghost use Rattle.std.specs.Prelude.{◌≡◌, ◌<◌, ◌≤◌, ◌+◌, ℕ, length, true, Some, slice_get, IfOk};
ghost use Rattle.yd_ids.specs.declared.id.Id.{Id as IdSeen};
ghost use Rattle.yd_ops.specs.Received.{has_operation};
ghost use Rattle.yd_received.specs.Received.{held_of};
ghost use Rattle.yd_honesty.specs.Pasts.{IsHeldWhole, ArePasts};
ghost use Rattle.yd_honesty.specs.Judging.{AreEnds, IsEnd, AreHeld};

use crate::fault::NoMemory;
use crate::pasts::is_past;
use std::alloc::Global;
use yd_ids::{Id, Vector};
use yd_received::Received;

/// For each place an end: the ids from the place up to it have the one at the place in their past,
/// or are it. In a list as it was written these are all units that were put behind it or behind one
/// of these. Each end is asked once whether it goes on.
pub(crate) fn ends_of(
    alloc: Global,
    received: &Received,
    pasts: &[Vector],
    ids: &[Id],
) -> Result<Vec<usize>, NoMemory>
    requires whole { IsHeldWhole received.now }
    requires pasts { ArePasts received.now pasts.now }
    requires held { AreHeld received.now ids.now }
    ensures { IfOk result (λ ends. AreEnds received.now ids.now ends.items 0) }
{
    let mut ends = vec![in alloc; 0; ids.len()]?;
    let mut at = ids.len();
    while at > 0 {
        at -= 1;
        ends[at] = end_of(received, pasts, ids, &ends, at);
    }
    Ok(ends)
}

/// The end of a place, where those behind it have theirs.
fn end_of(received: &Received, pasts: &[Vector], ids: &[Id], ends: &[usize], at: usize) -> usize
    requires whole { IsHeldWhole received.now }
    requires pasts { ArePasts received.now pasts.now }
    requires held { AreHeld received.now ids.now }
    requires ends { AreEnds received.now ids.now ends.now (at + 1) }
    requires inside { at < length ids.now }
    ensures { IsEnd received.now ids.now at result }
{
    let mut end = at + 1;
    while end < ids.len() && is_past(received, pasts, ids[end], ids[at]) {
        end = ends[end];
    }
    end
}
