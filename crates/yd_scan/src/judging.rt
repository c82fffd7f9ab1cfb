//! The verdict on a scanned run.

ghost use Rattle.std.specs.Prelude.{◌≡◌, Bool, nat_lt, IfSome, IfNone};
ghost use Rattle.yd_words.specs.Test.{is_some_and};
ghost use Rattle.yd_ids.specs.Ids.{is_same, is_same_neighbour};
ghost use Rattle.yd_scan.specs.Scanning.{verdict_on, verdict_by_left};
ghost use Rattle.yd_scan.specs.Verdicts.{verdict_of};

use crate::stretch::Stretch;
use yd_ids::{Id, is_same};

/// What a scanned run does to the place of the new one.
#[derive(Clone, Copy, Debug)]
pub enum Verdict {
    /// The scan ends in front of it.
    Stops,
    /// The place moves behind it.
    Moves,
    /// The scan goes on, and the place stays.
    Stays,
}

/// Whether both are absent, or both are there and one.
fn is_same_origin(a: Option<Id>, b: Option<Id>) -> bool
    ensures { result ≡ is_same_neighbour a b }
{
    match (a, b) {
        (None, None) => true,
        (Some(a), Some(b)) => is_same(a, b),
        _ => false,
    }
}

/// Whether there is an origin, and it is this id.
fn is_origin(id: Id, origin: Option<Id>) -> bool
    ensures { result ≡ is_some_and (is_same id) origin }
{
    match origin {
        None => false,
        Some(origin) => is_same(id, origin),
    }
}

/// What a scanned run does, where its left origin does not have to be looked up.
pub fn judge(next: &Stretch, new: &Stretch) -> Option<Verdict>
    ensures decided { IfSome result (λ verdict. (conflicts scanned : Bool) →
        verdict_of verdict ≡ verdict_on next.now new.now conflicts scanned) }
    ensures open { IfNone result ((conflicts scanned : Bool) →
        verdict_on next.now new.now conflicts scanned ≡ verdict_by_left conflicts scanned) }
{
    if is_origin(next.id, new.right) {
        return Some(Verdict::Stops);
    }
    if is_same_origin(next.left, new.left) {
        if next.id.client.0 < new.id.client.0 {
            return Some(Verdict::Moves);
        }
        if is_same_origin(next.right, new.right) {
            return Some(Verdict::Stops);
        }
        return Some(Verdict::Stays);
    }
    None
}

/// What a scanned run does, by the mark of the run that its left origin stands in: one above the mark
/// of the last move conflicts, and one above the mark at the start was scanned.
pub fn judge_by_left(mark: u64, start: u64, moved: u64) -> Verdict
    ensures { verdict_of result ≡ verdict_by_left (nat_lt moved mark) (nat_lt start mark) }
{
    if moved < mark {
        return Verdict::Stays;
    }
    if start < mark {
        Verdict::Moves
    } else {
        Verdict::Stops
    }
}
