//! An order that the integration scan proposes.
//!
//! It is checked before it is taken ([`crate::seating`]), and a table of all pairs gives the order
//! where it fails. So no clause says which order it is, and no answer would be wrong without it:
//! speed alone rests on this module. Ties go by the whole id, where Yjs compares clients, since the
//! rows of one client come in any order here.

ghost use Rattle.std.specs.Prelude.{◌≡◌, ◌<◌, length, IfOk};

use crate::fault::NoMemory;
use crate::filling::is_same_link;
use crate::linking::LinkedRow;
use std::alloc::Global;
use yd_ids::is_smaller;

/// What a scanned row does to the place of the new one.
#[derive(Clone, Copy)]
enum Verdict {
    /// The scan ends in front of it.
    Stops,
    /// The place moves behind it.
    Moves,
    /// The scan goes on, and the place stays.
    Stays,
}

/// How far the scan of one row has come. Each scanned row is marked with the number of its step,
/// and steps are counted over the scans of all rows.
#[derive(Clone, Copy)]
struct Scan {
    /// The row that is put in.
    new: LinkedRow,
    /// The step before its scan.
    begun: usize,
    /// The step at which the place last moved.
    moved: usize,
    /// The last step.
    step: usize,
    /// The place of the row behind which it goes, or the number of all rows for the front.
    place: usize,
}

/// The places of the rows as the scan puts in one after another, each after its neighbours.
pub fn scanned(
    alloc: Global,
    rows: &[LinkedRow],
    by_neighbours: &[usize],
) -> Result<Vec<usize>, NoMemory>
    ensures { IfOk result (λ proposal. length proposal.items ≡ length rows.now) }
{
    let mut next = vec![in alloc; rows.len(); rows.len() + 1]?;
    let mut marks = vec![in alloc; 0; rows.len()]?;
    let mut step = 0;
    for at in by_neighbours {
        if *at < rows.len() {
            step = put_in(rows, &mut next, &mut marks, *at, step);
        }
    }
    let proposal = chained(alloc, &next, rows.len())?;
    Ok(proposal)
}

/// Puts in a row after so many steps, and says how many there are then. Behind each place stands
/// the next one, and the number of all rows is both the front and the end.
fn put_in(
    rows: &[LinkedRow],
    next: &mut [usize],
    marks: &mut [usize],
    at: usize,
    step: usize,
) -> usize
    requires { at < length rows.now }
{
    let mut scan = Scan {
        new: rows[at],
        begun: step,
        moved: step,
        step,
        place: rows[at].left.unwrap_or(rows.len()),
    };
    walk(rows, next, marks, &mut scan);
    let behind = entry_at(next, scan.place);
    put(next, at, behind);
    put(next, scan.place, at);
    scan.step
}

/// Scans what stands behind the left of the new row, up to its right.
fn walk(rows: &[LinkedRow], next: &[usize], marks: &mut [usize], scan: &mut Scan) {
    let right = scan.new.right.unwrap_or(rows.len());
    let mut other = entry_at(next, scan.place);
    for _ in 0..rows.len() {
        if other == right || other >= rows.len() {
            return;
        }
        scan.step = scan.step.wrapping_add(1);
        put(marks, other, scan.step);
        match judged(*scan, rows[other], marks) {
            Verdict::Stops => return,
            Verdict::Moves => {
                scan.moved = scan.step;
                scan.place = other;
            }
            Verdict::Stays => {}
        }
        other = entry_at(next, other);
    }
}

/// What a scanned row does.
fn judged(scan: Scan, other: LinkedRow, marks: &[usize]) -> Verdict {
    if is_same_link(other.left, scan.new.left) {
        return at_neighbour(scan.new, other);
    }
    let mark = match other.left {
        None => 0,
        Some(left) => entry_at(marks, left),
    };
    if mark <= scan.begun {
        Verdict::Stops
    } else if mark <= scan.moved {
        Verdict::Moves
    } else {
        Verdict::Stays
    }
}

/// What a scanned row with the left of the new one does.
fn at_neighbour(new: LinkedRow, other: LinkedRow) -> Verdict {
    if is_smaller(other.id, new.id) {
        Verdict::Moves
    } else if is_same_link(other.right, new.right) {
        Verdict::Stops
    } else {
        Verdict::Stays
    }
}

/// So many links of the chain, from the front on.
fn chained(alloc: Global, next: &[usize], count: usize) -> Result<Vec<usize>, NoMemory>
    ensures { IfOk result (λ proposal. length proposal.items ≡ count) }
{
    let mut places = Vec::new(alloc);
    let mut at = entry_at(next, count);
    for _ in 0..count {
        places.push(at)?;
        at = entry_at(next, at);
    }
    Ok(places)
}

/// The entry at a place, and zero where there is none.
fn entry_at(entries: &[usize], at: usize) -> usize {
    if at < entries.len() { entries[at] } else { 0 }
}

/// Puts an entry at a place, if there is one.
fn put(entries: &mut [usize], at: usize, entry: usize) {
    if at < entries.len() {
        entries[at] = entry;
    }
}
