//! A run that goes on where another ends, and both as one.

ghost use Rattle.std.specs.Prelude.{◌≡◌, ◌<◌, ◌≤◌, ◌+◌, ◌-◌, ◌^◌, true, length, vec_capacity};
ghost use Rattle.yd_ids.specs.Ids.{is_same_neighbour};
ghost use Rattle.yd_scan.specs.Stretches.{stretch_at};
ghost use Rattle.yd_index.specs.Holding.{cut_stretches};
ghost use Rattle.yd_arena.specs.Joining.{Continues};

use yd_ids::{Id, is_same};
use yd_scan::Stretch;

/// The next run goes on where the run ends.
pub fn continues(run: Stretch, next: Stretch) -> bool
    ensures { result ≡ true → Continues run next }
{
    is_later(next.id, run.id, run.len)
        && stands_behind(next.left, next.id)
        && is_same_neighbour(run.right, next.right)
}

/// The first id is of the second's client, so many clocks later.
fn is_later(next: Id, id: Id, count: u64) -> bool
    ensures { result ≡ true → next ≡ record { client = id.client; clock = id.clock + count } }
{
    next.client.0 == id.client.0 && count <= next.clock && next.clock - count == id.clock
}

/// The left origin is the id before this one.
fn stands_behind(left: Option<Id>, id: Id) -> bool
    ensures { result ≡ true → 0 < id.clock × left ≡ Some (record { client = id.client; clock = id.clock - 1 }) }
{
    match left {
        None => false,
        Some(left) => is_later(id, left, 1),
    }
}

/// Both are absent, or both are there and one.
fn is_same_neighbour(a: Option<Id>, b: Option<Id>) -> bool
    ensures { result ≡ true → b ≡ a }
{
    match (a, b) {
        (None, None) => true,
        (Some(a), Some(b)) => is_same(a, b),
        _ => false,
    }
}

/// Joins the last run to the one at a place.
pub fn join_stretch(stretches: &mut Vec<Stretch>, place: usize)
    requires inside { place + 1 < length stretches.old.items }
    requires continues { Continues (stretch_at stretches.old.items place)
        (stretch_at stretches.old.items (length stretches.old.items - 1)) }
    requires fits { (stretch_at stretches.old.items place).len
        + (stretch_at stretches.old.items (length stretches.old.items - 1)).len < 2 ^ 64 }
    ensures items { stretches.old.items ≡ cut_stretches stretches.new.items place
        (stretch_at stretches.old.items place).len }
    ensures memory { vec_capacity stretches.new ≡ vec_capacity stretches.old }
{
    let Some(next) = stretches.pop() else {
        return;
    };
    stretches[place].len += next.len;
}
