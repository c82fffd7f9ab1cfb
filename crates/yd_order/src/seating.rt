//! Whether rows stand in a proposal as their lefts and rights ask, told by their seats in it.

ghost use Rattle.std.specs.Prelude.{◌≡◌, ◌↔◌, ◌<◌, length, IsTrue, IfSome, IfOk};
ghost use Rattle.yd_order.specs.Linking.{AreLinked};
ghost use Rattle.yd_order.specs.Seating.{AreSeatsOf, IsSeated, AreSeated, seat_of, is_passed, is_ahead, has_reason, AreHeads, IsBetween, HaveReasons, Stands, AllStand};

use crate::fault::NoMemory;
use crate::linking::LinkedRow;
use std::alloc::Global;
use yd_ids::is_smaller;

/// The seats in a proposal: for each row that it names its position there, from one on.
pub fn seats_of(alloc: Global, proposal: &[usize]) -> Result<Vec<usize>, NoMemory>
    ensures { IfOk result (λ seats. AreSeatsOf proposal.now seats.items (length proposal.now)) }
{
    let mut seats = vec![in alloc; 0; proposal.len()]?;
    for position in 0..proposal.len() {
        let at = proposal[position];
        if at < seats.len() {
            seats[at] = position + 1;
        }
    }
    Ok(seats)
}

/// The proposal has each of so many rows once, and the seats are their positions in it.
pub fn are_seated(count: usize, proposal: &[usize], seats: &[usize]) -> bool
    ensures { IsTrue result ↔ AreSeated count proposal.now seats.now }
{
    if proposal.len() != count || seats.len() != count {
        return false;
    }
    for at in 0..count {
        if !is_seated(proposal, seats, at) {
            return false;
        }
    }
    true
}

/// The proposal and the seats agree at a place.
fn is_seated(proposal: &[usize], seats: &[usize], at: usize) -> bool
    requires size { length seats.now ≡ length proposal.now }
    requires inside { at < length proposal.now }
    ensures { IsTrue result ↔ IsSeated proposal.now seats.now at }
{
    let other = proposal[at];
    let seat = seats[at];
    if other >= proposal.len() || seat == 0 || seat > proposal.len() {
        return false;
    }
    seats[other] == at + 1 && proposal[seat - 1] == at
}

/// All rows stand as their lefts and rights ask. It takes a step for each head between a row and
/// its left, so none for a row directly behind its left.
pub fn all_stand(rows: &[LinkedRow], proposal: &[usize], seats: &[usize], heads: &[usize]) -> bool
    requires links { AreLinked rows.now }
    requires seated { AreSeated (length rows.now) proposal.now seats.now }
    requires heads { AreHeads rows.now proposal.now seats.now heads.now }
    ensures { IsTrue result ↔ AllStand rows.now proposal.now seats.now }
{
    for at in 0..rows.len() {
        if !stands(rows, proposal, seats, heads, at) {
            return false;
        }
    }
    true
}

/// The row at a place stands as its left, its right and the rows in front of it ask.
fn stands(
    rows: &[LinkedRow],
    proposal: &[usize],
    seats: &[usize],
    heads: &[usize],
    at: usize,
) -> bool
    requires links { AreLinked rows.now }
    requires seated { AreSeated (length rows.now) proposal.now seats.now }
    requires heads { AreHeads rows.now proposal.now seats.now heads.now }
    requires inside { at < length rows.now }
    ensures { IsTrue result ↔ Stands rows.now proposal.now seats.now at }
{
    is_between(rows, seats, at) && have_reasons(rows, proposal, seats, heads, at)
}

/// The row at a place stands behind its left and in front of its right.
fn is_between(rows: &[LinkedRow], seats: &[usize], at: usize) -> bool
    requires links { AreLinked rows.now }
    requires size { length seats.now ≡ length rows.now }
    requires inside { at < length rows.now }
    ensures { IsTrue result ↔ IsBetween rows.now seats.now at }
{
    let row = rows[at];
    seat_of(seats, row.left) < seats[at] && !is_passed(seats, row.right, seats[at])
}

/// Each row between the left of the row at a place and this row has a reason to stand there. One
/// directly behind its left has, where that one stands there too.
fn have_reasons(
    rows: &[LinkedRow],
    proposal: &[usize],
    seats: &[usize],
    heads: &[usize],
    at: usize,
) -> bool
    requires links { AreLinked rows.now }
    requires seated { AreSeated (length rows.now) proposal.now seats.now }
    requires heads { AreHeads rows.now proposal.now seats.now heads.now }
    requires inside { at < length rows.now }
    ensures { IsTrue result ↔ HaveReasons rows.now proposal.now seats.now at }
{
    let first = seat_of(seats, rows[at].left);
    let mut position = seats[at] - 1;
    while position > first {
        let head = first.max(heads[position - 1]);
        if !has_reason(rows, seats, proposal[head], at) {
            return false;
        }
        position = head;
    }
    true
}

/// The row at the first place has a reason to stand in front of the other, whose left it does not
/// reach.
fn has_reason(rows: &[LinkedRow], seats: &[usize], a: usize, b: usize) -> bool
    requires links { AreLinked rows.now }
    requires size { length seats.now ≡ length rows.now }
    requires inside { (a < length rows.now) × (b < length rows.now) }
    ensures { result ≡ has_reason rows.now seats.now a b }
{
    is_passed(seats, rows[a].right, seats[b]) || is_ahead(rows, seats, a, b)
}

/// The left of the row at the first place has the later seat, or the lefts are one and the row's id
/// is smaller.
fn is_ahead(rows: &[LinkedRow], seats: &[usize], a: usize, b: usize) -> bool
    requires links { AreLinked rows.now }
    requires size { length seats.now ≡ length rows.now }
    requires inside { (a < length rows.now) × (b < length rows.now) }
    ensures { result ≡ is_ahead rows.now seats.now a b }
{
    let row = rows[a];
    let other = rows[b];
    let seat = seat_of(seats, row.left);
    let other_seat = seat_of(seats, other.left);
    other_seat < seat || seat == other_seat && is_smaller(row.id, other.id)
}

/// The seat of a left, or 0, which is in front of all seats.
pub fn seat_of(seats: &[usize], left: Option<usize>) -> usize
    requires { IfSome left (λ at. at < length seats.now) }
    ensures { result ≡ seat_of seats.now left }
{
    match left {
        None => 0,
        Some(at) => seats[at],
    }
}

/// There is a right, and its seat is no later than this one.
fn is_passed(seats: &[usize], right: Option<usize>, seat: usize) -> bool
    requires { IfSome right (λ at. at < length seats.now) }
    ensures { result ≡ is_passed seats.now right seat }
{
    match right {
        None => false,
        Some(at) => seats[at] <= seat,
    }
}
