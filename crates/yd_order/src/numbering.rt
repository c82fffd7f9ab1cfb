//! Numbers of rows, each greater than those of its left and its right.

ghost use Rattle.std.specs.Prelude.{◌≡◌, ◌↔◌, ◌<◌, length, IsTrue, IfSome, IfOk, OnOk};
ghost use Rattle.yd_origins.specs.Table.{IsTable};
ghost use Rattle.yd_order.specs.Linking.{AreLinked, HasLinks, table_of_linked};
ghost use Rattle.yd_order.specs.Numbering.{IsNumbering, IsMarked, IsReady, ArePartlyNumbered, NumbersReady, Numbers};

use crate::fault::NoMemory;
use crate::linking::LinkedRow;
use crate::turns::turns_of;
use std::alloc::Global;

/// The places of the rows, each after those of its left and its right. Rows are numbered in the turns
/// that are proposed, and then in passes over all rows, which number those that wait for none.
pub fn numbered(alloc: Global, rows: &[LinkedRow]) -> Result<Vec<usize>, NoMemory>
    requires links { AreLinked rows.now }
    requires table { IsTable (table_of_linked rows.now) }
    ensures { IfOk result (λ by_neighbours. IsNumbering rows.now by_neighbours.items) }
{
    let mut by_neighbours = Vec::new(alloc);
    let mut marks = vec![in alloc; false; rows.len()]?;
    let turns = turns_of(alloc, rows)?;
    number_in_turns(rows, &mut marks, &mut by_neighbours, &turns)?;
    number_all(rows, &mut marks, &mut by_neighbours)?;
    Ok(by_neighbours)
}

/// Numbers rows in these turns, each if its left and right have numbers then.
fn number_in_turns(
    rows: &[LinkedRow],
    marks: &mut [bool],
    by_neighbours: &mut Vec<usize>,
    turns: &[usize],
) -> Result<(), NoMemory>
    requires links { AreLinked rows.now }
    requires numbered { ArePartlyNumbered rows.now marks.old by_neighbours.old.items }
    ensures { OnOk result (ArePartlyNumbered rows.now marks.new by_neighbours.new.items) }
{
    for at in turns {
        if *at < rows.len() {
            number(rows, marks, by_neighbours, *at)?;
        }
    }
    Ok(())
}

/// Numbers all rows, one pass after another: at most as many as there are rows.
fn number_all(
    rows: &[LinkedRow],
    marks: &mut [bool],
    by_neighbours: &mut Vec<usize>,
) -> Result<(), NoMemory>
    requires links { AreLinked rows.now }
    requires table { IsTable (table_of_linked rows.now) }
    requires numbered { ArePartlyNumbered rows.now marks.old by_neighbours.old.items }
    ensures { OnOk result (IsNumbering rows.now by_neighbours.new.items) }
{
    for _ in 0..rows.len() {
        if number_ready(rows, marks, by_neighbours)? {
            return Ok(());
        }
    }
    Ok(())
}

/// Numbers each row whose left and right have numbers, and says whether all rows have one now.
fn number_ready(
    rows: &[LinkedRow],
    marks: &mut [bool],
    by_neighbours: &mut Vec<usize>,
) -> Result<bool, NoMemory>
    requires links { AreLinked rows.now }
    requires numbered { ArePartlyNumbered rows.now marks.old by_neighbours.old.items }
    ensures { IfOk result (λ all.
        NumbersReady rows.now marks.old marks.new by_neighbours.new.items (length rows.now) all) }
{
    let mut all = true;
    for at in 0..rows.len() {
        if !number(rows, marks, by_neighbours, at)? {
            all = false;
        }
    }
    Ok(all)
}

/// Numbers the row at a place if its left and right have numbers, and says whether it has one now.
fn number(
    rows: &[LinkedRow],
    marks: &mut [bool],
    by_neighbours: &mut Vec<usize>,
    at: usize,
) -> Result<bool, NoMemory>
    requires links { AreLinked rows.now }
    requires numbered { ArePartlyNumbered rows.now marks.old by_neighbours.old.items }
    requires inside { at < length rows.now }
    ensures { IfOk result (λ has.
        Numbers rows.now marks.old marks.new by_neighbours.new.items at has) }
{
    if marks[at] {
        return Ok(true);
    }
    if !is_ready(rows, marks, at) {
        return Ok(false);
    }
    by_neighbours.push(at)?;
    marks[at] = true;
    Ok(true)
}

/// The left and the right of the row at a place have numbers, where they are there.
fn is_ready(rows: &[LinkedRow], marks: &[bool], at: usize) -> bool
    requires links { AreLinked rows.now }
    requires size { length marks.now ≡ length rows.now }
    requires inside { at < length rows.now }
    ensures { IsTrue result ↔ IsReady rows.now marks.now at }
{
    let row = rows[at];
    has_number(marks, row.left) && has_number(marks, row.right)
}

/// The row at the end of a link has a number, if there is one.
fn has_number(marks: &[bool], link: Option<usize>) -> bool
    requires { IfSome link (λ at. at < length marks.now) }
    ensures { IsTrue result ↔ IfSome link (IsMarked marks.now) }
{
    match link {
        None => true,
        Some(at) => marks[at],
    }
}
