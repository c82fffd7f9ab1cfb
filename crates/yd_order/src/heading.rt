//! Heads of a proposal: where a row does not stand directly behind its left.

ghost use Rattle.std.specs.Prelude.{◌≡◌, ◌<◌, length, IfOk};
ghost use Rattle.yd_order.specs.Linking.{AreLinked};
ghost use Rattle.yd_order.specs.Seating.{AreSeated, is_direct, AreHeads};

use crate::fault::NoMemory;
use crate::linking::LinkedRow;
use crate::seating::seat_of;
use std::alloc::Global;

/// For each position of the proposal the last one up to it at which no row stands directly behind
/// its left.
pub fn heads_of(
    alloc: Global,
    rows: &[LinkedRow],
    proposal: &[usize],
    seats: &[usize],
) -> Result<Vec<usize>, NoMemory>
    requires links { AreLinked rows.now }
    requires seated { AreSeated (length rows.now) proposal.now seats.now }
    ensures { IfOk result (λ heads. AreHeads rows.now proposal.now seats.now heads.items) }
{
    let mut heads = Vec::new(alloc);
    let mut head = 0;
    for position in 0..proposal.len() {
        if !is_direct(rows, proposal, seats, position) {
            head = position;
        }
        heads.push(head)?;
    }
    Ok(heads)
}

/// The row at a position of the proposal stands directly behind its left, or first and has none.
fn is_direct(rows: &[LinkedRow], proposal: &[usize], seats: &[usize], position: usize) -> bool
    requires links { AreLinked rows.now }
    requires seated { AreSeated (length rows.now) proposal.now seats.now }
    requires inside { position < length proposal.now }
    ensures { result ≡ is_direct rows.now proposal.now seats.now position }
{
    seat_of(seats, rows[proposal[position]].left) == position
}
