//! The table of pairs, filled by the six lines.

ghost use Rattle.std.specs.Prelude.{◌≡◌, ◌≢◌, ◌<◌, ◌+◌, ◌*◌, length, replicate, false, IfSome, IfOk};
ghost use Rattle.yd_origins.specs.Table.{IsTable};
ghost use Rattle.yd_order.specs.Filling.{is_before_at, cell_at, reaches_place, reaches_left, right_reaches, is_same_link, is_later_link, IsAsked, FillsPair, AreFilled, AreFilledBelow};
ghost use Rattle.yd_order.specs.Linking.{AreLinked, table_of_linked};
ghost use Rattle.yd_order.specs.Numbering.{IsNumbering, IsArranged};

use crate::fault::NoMemory;
use crate::linking::LinkedRow;
use std::alloc::Global;
use yd_ids::is_smaller;

/// For each two rows, whether the first is before the second.
pub fn filled(
    alloc: Global,
    rows: &[LinkedRow],
    by_neighbours: &[usize],
) -> Result<Vec<bool>, NoMemory>
    requires links { AreLinked rows.now }
    requires table { IsTable (table_of_linked rows.now) }
    requires numbering { IsNumbering rows.now by_neighbours.now }
    ensures size { IfOk result (λ cells. length cells.items ≡ length rows.now * length rows.now) }
    ensures filled { IfOk result (λ cells. AreFilled rows.now cells.items) }
{
    let mut cells = empty(alloc, rows.len())?;
    for number in 0..by_neighbours.len() {
        fill_row(rows, by_neighbours, &mut cells, number);
    }
    Ok(cells)
}

/// Cells for so many rows, none of which says that a row is before another.
fn empty(alloc: Global, count: usize) -> Result<Vec<bool>, NoMemory>
    ensures { IfOk result (λ cells. cells.items ≡ replicate (count * count) false) }
{
    let Some(size) = count.checked_mul(count) else {
        return Err(NoMemory);
    };
    let cells = vec![in alloc; false; size]?;
    Ok(cells)
}

/// Fills the pairs of the row with a number and each row with a smaller one, in the order of these.
/// So each line asks only for pairs that are filled.
fn fill_row(rows: &[LinkedRow], by_neighbours: &[usize], cells: &mut [bool], number: usize)
    requires links { AreLinked rows.now }
    requires table { IsTable (table_of_linked rows.now) }
    requires arranged { IsArranged rows.now by_neighbours.now }
    requires inside { number < length by_neighbours.now }
    requires below { AreFilledBelow rows.now by_neighbours.now cells.old number }
    ensures { AreFilledBelow rows.now by_neighbours.now cells.new (number + 1) }
{
    for earlier in 0..number {
        fill_pair(rows, cells, by_neighbours[number], by_neighbours[earlier]);
    }
}

/// Fills the two cells of two places.
fn fill_pair(rows: &[LinkedRow], cells: &mut [bool], a: usize, b: usize)
    requires links { AreLinked rows.now }
    requires table { IsTable (table_of_linked rows.now) }
    requires size { length cells.old ≡ length rows.now * length rows.now }
    requires inside { (a < length rows.now) × (b < length rows.now) }
    requires apart { a ≢ b }
    requires asked { IsAsked rows.now cells.old a b }
    requires asked_back { IsAsked rows.now cells.old b a }
    ensures { FillsPair rows.now cells.old cells.new a b }
{
    let first = is_before(rows, cells, a, b);
    let back = is_before(rows, cells, b, a);
    let count = rows.len();
    cells[a * count + b] = first;
    cells[b * count + a] = back;
}

/// The row at the first place is before that at the second: the first line that applies decides.
fn is_before(rows: &[LinkedRow], cells: &[bool], a: usize, b: usize) -> bool
    requires links { AreLinked rows.now }
    requires table { IsTable (table_of_linked rows.now) }
    requires size { length cells.now ≡ length rows.now * length rows.now }
    requires inside { (a < length rows.now) × (b < length rows.now) }
    requires apart { a ≢ b }
    requires asked { IsAsked rows.now cells.now a b }
    ensures { result ≡ is_before_at rows.now a b }
{
    let count = rows.len();
    let row = rows[a];
    let other = rows[b];
    if reaches_left(cells, count, a, other.left) {
        return true;
    }
    if reaches_left(cells, count, b, row.left) {
        return false;
    }
    if right_reaches(cells, count, row.right, b) {
        return true;
    }
    if right_reaches(cells, count, other.right, a) {
        return false;
    }
    if is_same_link(row.left, other.left) {
        return is_smaller(row.id, other.id);
    }
    is_later_link(cells, count, row.left, other.left)
}

/// There is a left, and the row at the place is up to it.
fn reaches_left(cells: &[bool], count: usize, a: usize, left: Option<usize>) -> bool
    requires size { length cells.now ≡ count * count }
    requires inside { a < count }
    requires left_inside { IfSome left (λ p. p < count) }
    ensures { result ≡ reaches_left cells.now count a left }
{
    match left {
        None => false,
        Some(p) => reaches_place(cells, count, a, p),
    }
}

/// There is a right, and it is up to the row at the place.
fn right_reaches(cells: &[bool], count: usize, right: Option<usize>, b: usize) -> bool
    requires size { length cells.now ≡ count * count }
    requires inside { b < count }
    requires right_inside { IfSome right (λ r. r < count) }
    ensures { result ≡ right_reaches cells.now count right b }
{
    match right {
        None => false,
        Some(r) => reaches_place(cells, count, r, b),
    }
}

/// Two places are one, or the row at the first is before that at the second.
fn reaches_place(cells: &[bool], count: usize, a: usize, b: usize) -> bool
    requires size { length cells.now ≡ count * count }
    requires inside { (a < count) × (b < count) }
    ensures { result ≡ reaches_place cells.now count a b }
{
    a == b || cell(cells, count, a, b)
}

/// Both links are absent, or both are there and one.
pub fn is_same_link(a: Option<usize>, b: Option<usize>) -> bool
    ensures { result ≡ is_same_link a b }
{
    match a {
        None => b.is_none(),
        Some(p) => match b {
            None => false,
            Some(q) => p == q,
        },
    }
}

/// The first left is there, and the second is absent or before it.
fn is_later_link(cells: &[bool], count: usize, left: Option<usize>, other: Option<usize>) -> bool
    requires size { length cells.now ≡ count * count }
    requires left_inside { IfSome left (λ p. p < count) }
    requires other_inside { IfSome other (λ q. q < count) }
    ensures { result ≡ is_later_link cells.now count left other }
{
    match left {
        None => false,
        Some(p) => match other {
            None => true,
            Some(q) => cell(cells, count, q, p),
        },
    }
}

/// What the cell of two places says.
pub fn cell(cells: &[bool], count: usize, a: usize, b: usize) -> bool
    requires size { length cells.now ≡ count * count }
    requires inside { (a < count) × (b < count) }
    ensures { result ≡ cell_at cells.now count a b }
{
    cells[a * count + b]
}
