//! Whether the units of a list meet the edit rules.

ghost use Rattle.std.specs.Prelude.{◌≡◌, ◌<◌, ◌&&◌, length, true, Some, None, slice_get, Decides, IfSome};
ghost use Rattle.yd_words.specs.Member.{IsIn};
ghost use Rattle.yd_ids.specs.declared.id.Id.{Id as IdSeen};
ghost use Rattle.yd_meaning.specs.Order.{MeetsRules};
ghost use Rattle.yd_ops.specs.Operation.{Operation};
ghost use Rattle.yd_received.specs.Received.{held_of, listed_of};
ghost use Rattle.yd_honesty.specs.Pasts.{ArePasts};
ghost use Rattle.yd_honesty.specs.Judging.{IsKept, IsList, AreEnds, AreHeld, IsApart, IsParted, IsPlaced, BeginsAt, EndsAt, are_in_order, is_behind, is_ahead};

use crate::origins::origins_of;
use crate::pasts::is_past;
use crate::places::{Spots, place_of_some};
use yd_ids::{Id, Vector};
use yd_order::Comparison;
use yd_received::Received;

/// The first unit at a place of a list meets the edit rules.
pub(crate) fn meets_rules(
    received: &Received,
    pasts: &[Vector],
    list: &Comparison,
    lasts: &[Id],
    spots: &Spots,
    ends: &[usize],
    at: usize,
) -> bool
    requires kept { IsKept received.now }
    requires pasts { ArePasts received.now pasts.now }
    requires list { IsList received.now list.now.ids.items lasts.now list.now.is_strict
        list.now.cells.items }
    requires held { AreHeld received.now list.now.ids.items }
    requires ends { AreEnds received.now list.now.ids.items ends.now 0 }
    requires inside { at < length list.now.ids.items }
    ensures { (o : Operation) → IsIn o (listed_of received.now)
        → slice_get list.now.ids.items at ≡ Some o.id
        → Decides result (MeetsRules (held_of received.now) o) }
{
    let origins = origins_of(received, id_at(list, at));
    let left = place_of_some(lasts, &spots.lasts, origins.left);
    let right = place_of_some(&list.ids, &spots.firsts, origins.right);
    if is_apart(origins.left, origins.right, right) {
        return false;
    }
    if !are_in_order(list, left, right) {
        return false;
    }
    let parted = is_parted(received, pasts, list, ends, at, left, right);
    !parted
}

/// The id at a place of the list.
pub(crate) fn id_at(list: &Comparison, at: usize) -> Id
    requires { at < length list.now.ids.items }
    ensures { slice_get list.now.ids.items at ≡ Some result }
{
    list.ids[at]
}

/// Both origins are there, and the right one has no place in the list.
fn is_apart(left: Option<Id>, right: Option<Id>, place: Option<usize>) -> bool
    ensures { Decides result (IsApart left right place) }
{
    left.is_some() && right.is_some() && place.is_none()
}

/// The two places are in order, where both are there.
fn are_in_order(list: &Comparison, left: Option<usize>, right: Option<usize>) -> bool
    requires { IsPlaced list.now.ids.items list.now.is_strict list.now.cells.items
        left right }
    ensures { result ≡ are_in_order list.now.is_strict list.now.cells.items
        (length list.now.ids.items) left right }
{
    match left {
        None => true,
        Some(p) => match right {
            None => true,
            Some(r) => list.is_before(p, r),
        },
    }
}

/// Something that the maker of the unit at a place had stands strictly between two places. In a
/// strict order no place is looked at that does not stand between them, and where one is not of the
/// past, all that have it in their past are left out.
fn is_parted(
    received: &Received,
    pasts: &[Vector],
    list: &Comparison,
    ends: &[usize],
    at: usize,
    left: Option<usize>,
    right: Option<usize>,
) -> bool
    requires kept { IsKept received.now }
    requires pasts { ArePasts received.now pasts.now }
    requires held { AreHeld received.now list.now.ids.items }
    requires ends { AreEnds received.now list.now.ids.items ends.now 0 }
    requires inside { at < length list.now.ids.items }
    requires placed { IsPlaced list.now.ids.items list.now.is_strict list.now.cells.items
        left right }
    ensures { (x : IdSeen) → slice_get list.now.ids.items at ≡ Some x → Decides result
        (IsParted received.now list.now.ids.items list.now.is_strict list.now.cells.items
        x left right) }
{
    let mut place = first_behind(list, left);
    let end = first_not_ahead(list, right);
    while place < end {
        if !is_past(received, pasts, id_at(list, at), id_at(list, place)) {
            place = ends[place];
        } else if is_between(list, left, place, right) {
            return true;
        } else {
            place += 1;
        }
    }
    false
}

/// The place stands behind the first one and in front of the other, where these are there.
fn is_between(list: &Comparison, left: Option<usize>, place: usize, right: Option<usize>) -> bool
    requires placed { IsPlaced list.now.ids.items list.now.is_strict list.now.cells.items
        left right }
    requires inside { place < length list.now.ids.items }
    ensures { result ≡ (is_behind list.now.is_strict list.now.cells.items
        (length list.now.ids.items) left place && is_ahead list.now.is_strict list.now.cells.items
        (length list.now.ids.items) place right) }
{
    is_behind(list, left, place) && is_ahead(list, place, right)
}

/// The place stands behind another, if there is one.
fn is_behind(list: &Comparison, left: Option<usize>, place: usize) -> bool
    requires placed { IsPlaced list.now.ids.items list.now.is_strict list.now.cells.items
        left None }
    requires inside { place < length list.now.ids.items }
    ensures { result ≡ is_behind list.now.is_strict list.now.cells.items
        (length list.now.ids.items) left place }
{
    match left {
        None => true,
        Some(p) => list.is_before(p, place),
    }
}

/// The place stands in front of another, if there is one.
fn is_ahead(list: &Comparison, place: usize, right: Option<usize>) -> bool
    requires placed { IsPlaced list.now.ids.items list.now.is_strict list.now.cells.items
        None right }
    requires inside { place < length list.now.ids.items }
    ensures { result ≡ is_ahead list.now.is_strict list.now.cells.items
        (length list.now.ids.items) place right }
{
    match right {
        None => true,
        Some(r) => list.is_before(place, r),
    }
}

/// A place before which none stands behind another: in a strict order the next one.
fn first_behind(list: &Comparison, left: Option<usize>) -> usize
    requires { IfSome left (λ p. p < length list.now.ids.items) }
    ensures { BeginsAt list.now.ids.items list.now.is_strict list.now.cells.items left result }
{
    match left {
        Some(p) if list.is_strict => p + 1,
        _ => 0,
    }
}

/// A place from which on none stands in front of another: in a strict order that one.
fn first_not_ahead(list: &Comparison, right: Option<usize>) -> usize
    requires { IfSome right (λ p. p < length list.now.ids.items) }
    ensures { EndsAt list.now.ids.items list.now.is_strict list.now.cells.items right result }
{
    match right {
        Some(r) if list.is_strict => r,
        _ => list.ids.len(),
    }
}
