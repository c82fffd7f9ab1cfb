//! Rows whose left and right are told by their places.

ghost use Rattle.std.specs.Prelude.{◌≡◌, map, IfOk};
ghost use Rattle.yd_order.specs.Rows.{AreAscending, place_of, place_of_neighbour};
ghost use Rattle.yd_order.specs.Linking.{linked_row};

use crate::fault::NoMemory;
use crate::rows::OriginRow;
use std::alloc::Global;
use yd_ids::{Id, is_same, is_smaller};

/// A row whose left and right are told by their places among the rows.
#[derive(Clone, Copy)]
pub struct LinkedRow {
    pub id: Id,
    pub left: Option<usize>,
    pub right: Option<usize>,
}

/// The rows with the places of their lefts and rights.
pub fn linked(alloc: Global, rows: &[OriginRow]) -> Result<Vec<LinkedRow>, NoMemory>
    requires { AreAscending rows.now }
    ensures { IfOk result (λ links. links.items ≡ map (linked_row rows.now) rows.now) }
{
    let mut links = Vec::new(alloc);
    for row in rows {
        // Where a client typed in a row, a neighbour is the row before.
        let near = links.len().saturating_sub(1);
        links.push(LinkedRow {
            id: row.id,
            left: place_of_neighbour(rows, near, row.left),
            right: place_of_neighbour(rows, near, row.right),
        })?;
    }
    Ok(links)
}

/// The place of a neighbour among the rows. One place is looked at before they are searched.
fn place_of_neighbour(rows: &[OriginRow], near: usize, neighbour: Option<Id>) -> Option<usize>
    requires { AreAscending rows.now }
    ensures { result ≡ place_of_neighbour rows.now neighbour }
{
    let id = neighbour?;
    if near < rows.len() && is_same(rows[near].id, id) {
        return Some(near);
    }
    place_of(rows, id)
}

/// The place of the row with an id, found by bisection.
fn place_of(rows: &[OriginRow], id: Id) -> Option<usize>
    requires { AreAscending rows.now }
    ensures { result ≡ place_of rows.now id }
{
    let at = rows.partition_point(|row| is_smaller(row.id, id));
    if at < rows.len() && is_same(rows[at].id, id) {
        Some(at)
    } else {
        None
    }
}
