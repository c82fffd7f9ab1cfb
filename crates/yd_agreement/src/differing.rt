//! Where a run and the next one differ.

ghost use Rattle.std.specs.Prelude.{◌≡◌, ◌+◌, ◌<◌, Some};
ghost use Rattle.yd_ids.specs.Id.{IsClock};
ghost use Rattle.yd_ids.specs.Ids.{is_same_neighbour};
ghost use Rattle.yd_meaning.specs.Names.{same_carried};
ghost use Rattle.yd_ops.specs.Value.{len_of};
ghost use Rattle.yd_ops.specs.View.{content_value, run_value};
ghost use Rattle.yd_agreement.specs.Differing.{Differ, HasRange, IsOther, content_of, is_placed, place_of};
ghost use Rattle.yd_agreement.specs.First.{IsFirst};
ghost use Rattle.yd_agreement.specs.Runs.{ComesBy};

use crate::same_unit::is_same_unit;
use yd_ids::Id;
use yd_names::is_same_list;
use yd_ops::{Content, List, Run};

/// The first id on which a run and the next one differ in content, in time of the ids that both have.
pub fn differ_in_content(run: &Run, next: &Run) -> Option<Id>
    requires run { HasRange (run_value run.now) }
    requires next { HasRange (run_value next.now) }
    requires order { ComesBy run.now.id next.now.id }
    ensures { IsFirst (Differ content_of (run_value run.now) (run_value next.now)) result }
{
    if run.id.client.0 != next.id.client.0 {
        return None;
    }
    let from = next.id.clock - run.id.clock;
    match first_other(&run.content, from, &next.content) {
        None => None,
        Some(k) => Some(Id {
            client: next.id.client,
            clock: next.id.clock + k,
        }),
    }
}

/// The first unit of a content that is another one than its counterpart, which stands so many units
/// further behind in the first content.
fn first_other(a: &Content, from: u64, b: &Content) -> Option<u64>
    ensures { IsOther (content_value a.now) from (content_value b.now) result }
{
    if from >= a.len() {
        return None;
    }
    let count = b.len().min(a.len() - from);
    for k in 0..count {
        if !is_same_unit(a, from + k, b, k) {
            return Some(k);
        }
    }
    None
}

/// The first id on which a run and the next one differ in place: the first one that both have, since
/// of each later one both have the id before as left origin, and no list.
pub fn differ_in_place(run: &Run, next: &Run) -> Option<Id>
    requires run { HasRange (run_value run.now) }
    requires next { HasRange (run_value next.now) }
    requires order { ComesBy run.now.id next.now.id }
    ensures { IsFirst (Differ place_of (run_value run.now) (run_value next.now)) result }
{
    if run.id.client.0 != next.id.client.0 {
        return None;
    }
    let from = next.id.clock - run.id.clock;
    if from >= run.len() {
        return None;
    }
    if is_placed(run, from, next) {
        return None;
    }
    Some(next.id)
}

/// Unit `n` of a run has the place of the first unit of the next one.
fn is_placed(run: &Run, n: u64, next: &Run) -> bool
    requires { IsClock (run.now.id.clock + n) }
    ensures { result ≡ is_placed (run_value run.now) n (run_value next.now) }
{
    if n == 0 {
        return is_same_neighbour(run.left, next.left)
            && is_same_neighbour(run.right, next.right)
            && is_same_carried(&run.list, &next.list);
    }
    let before = Id {
        client: run.id.client,
        clock: run.id.clock + (n - 1),
    };
    is_same_neighbour(Some(before), next.left)
        && is_same_neighbour(run.right, next.right)
        && next.list.is_none()
}

/// Both are absent, or both are there and one.
fn is_same_neighbour(a: Option<Id>, b: Option<Id>) -> bool
    ensures { result ≡ is_same_neighbour a b }
{
    match (a, b) {
        (None, None) => true,
        (Some(a), Some(b)) => yd_ids::is_same(a, b),
        _ => false,
    }
}

/// Both carry the same list, or none.
fn is_same_carried(a: &Option<List>, b: &Option<List>) -> bool
    ensures { result ≡ same_carried a.now b.now }
{
    match a {
        None => b.is_none(),
        Some(list) => is_carried(b, list),
    }
}

/// It is this list.
fn is_carried(a: &Option<List>, list: &List) -> bool
    ensures { result ≡ same_carried (Some list.now) a.now }
{
    match a {
        None => false,
        Some(other) => is_same_list(list, other),
    }
}
