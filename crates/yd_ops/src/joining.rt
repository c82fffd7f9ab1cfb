//! Which runs are one run cut in two.

ghost use Rattle.std.specs.Prelude.{◌≡◌};
ghost use Rattle.yd_ids.specs.Ids.{is_same, is_same_neighbour};
ghost use Rattle.yd_ops.specs.Operation.{later_id};
ghost use Rattle.yd_ops.specs.View.{content_value, run_value};
ghost use Rattle.yd_ops.specs.Joining.{are_of_one_kind, stands_behind, run_joins};

use crate::contents::Content;
use crate::runs::Run;
use yd_ids::Id;

impl Run {
    /// The next run goes on where this one ends, so that both can stand as one: it begins at the next
    /// clock, its left origin is this run's last unit, both have one right origin, and both hold
    /// strings, or any-values, or JSON units, or deleted units. So the parts of a cut join, and what
    /// joins is one run cut in two (`law::runs_join`).
    pub fn joins(&self, next: &Run) -> bool
        ensures { result ≡ run_joins (run_value self.now) (run_value next.now) }
    {
        is_later(next.id, self.id, self.len())
            && stands_behind(next.left, next.id)
            && is_same_neighbour(self.right, next.right)
            && are_of_one_kind(&self.content, &next.content)
    }
}

/// The first id is of the second's client, so many clocks later.
fn is_later(next: Id, id: Id, count: u64) -> bool
    ensures { result ≡ is_same next (later_id id count) }
{
    next.client.0 == id.client.0 && count <= next.clock && next.clock - count == id.clock
}

/// The left origin is the id before this one.
fn stands_behind(left: Option<Id>, id: Id) -> bool
    ensures { result ≡ stands_behind left id }
{
    match left {
        None => false,
        Some(left) => is_later(id, left, 1),
    }
}

/// Both are absent, or both are there and one.
fn is_same_neighbour(a: Option<Id>, b: Option<Id>) -> bool
    ensures { result ≡ is_same_neighbour a b }
{
    match (a, b) {
        (None, None) => true,
        (Some(a), Some(b)) => yd_ids::is_same(a, b),
        _ => false,
    }
}

/// Both are of one kind of those of which a run may have several units.
fn are_of_one_kind(content: &Content, next: &Content) -> bool
    ensures { result ≡ are_of_one_kind (content_value content.now) (content_value next.now) }
{
    match content {
        Content::Str(_) => matches!(next, Content::Str(_)),
        Content::Any(_) => matches!(next, Content::Any(_)),
        Content::Json(_) => matches!(next, Content::Json(_)),
        Content::Deleted(_) => matches!(next, Content::Deleted(_)),
        _ => false,
    }
}
