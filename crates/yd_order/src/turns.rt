//! In which turns rows are numbered, as it is proposed: each behind its left and its right. A row that
//! comes too early is numbered in a later pass ([`crate::numbering`]), so no clause speaks of their order.

ghost use Rattle.std.specs.Prelude.{◌<◌, length, OnOk, IfOk};
ghost use Rattle.yd_words.specs.Each.{Each};

use crate::fault::NoMemory;
use crate::linking::LinkedRow;
use std::alloc::Global;

/// The places of the rows, each behind those of its left and its right. It takes a few steps for each
/// row, where these lead to rows and in no circle.
pub fn turns_of(alloc: Global, rows: &[LinkedRow]) -> Result<Vec<usize>, NoMemory>
    ensures { IfOk result (λ turns. Each (λ at. at < length rows.now) turns.items) }
{
    let mut turns = Vec::new(alloc);
    let mut done = vec![in alloc; false; rows.len()]?;
    let mut due = Vec::new(alloc);
    for at in 0..rows.len() {
        due.push(at)?;
        give_turns(rows, &mut done, &mut due, &mut turns)?;
    }
    Ok(turns)
}

/// Gives the rows that are due their turns, the last one first, and before it what it stands behind.
fn give_turns(
    rows: &[LinkedRow],
    done: &mut [bool],
    due: &mut Vec<usize>,
    turns: &mut Vec<usize>,
) -> Result<(), NoMemory>
    requires { Each (λ at. at < length rows.now) turns.old.items }
    ensures { OnOk result (Each (λ at. at < length rows.now) turns.new.items) }
{
    // Each row that has had no turn is put back twice at most, so these steps are enough.
    for _ in 0..rows.len().saturating_mul(4) {
        match due.pop() {
            None => return Ok(()),
            Some(at) => give_turn(rows, done, due, turns, at)?,
        }
    }
    Ok(())
}

/// Gives a row its turn, if none of its neighbours is to have one before.
fn give_turn(
    rows: &[LinkedRow],
    done: &mut [bool],
    due: &mut Vec<usize>,
    turns: &mut Vec<usize>,
    at: usize,
) -> Result<(), NoMemory>
    requires { Each (λ at. at < length rows.now) turns.old.items }
    ensures { OnOk result (Each (λ at. at < length rows.now) turns.new.items) }
{
    if at >= rows.len() || is_done(done, at) {
        return Ok(());
    }
    if let Some(first) = missing(done, rows[at].left) {
        put_behind(due, at, first)?;
        return Ok(());
    }
    if let Some(first) = missing(done, rows[at].right) {
        put_behind(due, at, first)?;
        return Ok(());
    }
    turns.push(at)?;
    mark(done, at);
    Ok(())
}

/// Makes a row due again, behind one that is to have its turn first.
fn put_behind(due: &mut Vec<usize>, at: usize, first: usize) -> Result<(), NoMemory> {
    due.push(at)?;
    due.push(first)?;
    Ok(())
}

/// The place of a neighbour that has had no turn.
fn missing(done: &[bool], link: Option<usize>) -> Option<usize> {
    let at = link?;
    if is_done(done, at) {
        return None;
    }
    Some(at)
}

/// The row at the place has had its turn, or there is none.
fn is_done(done: &[bool], at: usize) -> bool {
    at >= done.len() || done[at]
}

/// The row at the place has had its turn now.
fn mark(done: &mut [bool], at: usize) {
    if at < done.len() {
        done[at] = true;
    }
}
