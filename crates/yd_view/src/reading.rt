//! Reading a list as text.

ghost use Rattle.std.specs.Prelude.{◌≡◌, ◌+◌, ◌<◌, ◌≤◌, length, take, drop, IfOk, OnOk};
ghost use Rattle.yd_ids.specs.Id.{IsClock};
ghost use Rattle.yd_meaning.specs.Text.{shown_text};
ghost use Rattle.yd_doc.specs.Kept.{own_document};
ghost use Rattle.yd_state.specs.Lent.{units_of_view, IsWithin};
ghost use Rattle.yd_view.specs.Halves.{live_seen, seen_from, TakesIn};

use crate::fault::NoMemory;
use crate::halves::{Halves, Seen};
use std::alloc::Global;
use yd_doc::{Replica, RunView};
use yd_ids::Id;
use yd_ops::{Content, List};
use yd_units::Units;

/// The text that a list shows, as UTF-16 units: its live text units in order, with U+FFFD for a half
/// that does not stand beside its partner (Yjs 13, toString of a text; that lone halves are replaced
/// is own). It takes time with the units of the list, and memory with those that it shows.
pub fn text(alloc: Global, replica: &Replica, list: &List) -> Result<Units, NoMemory>
    ensures { IfOk result (λ units. units ≡ shown_text (own_document replica.now) list.now) }
{
    let mut view = replica.list(list);
    let mut halves = Halves::new(alloc);
    while let Some(piece) = view.next() {
        take_piece(&mut halves, &piece)?;
    }
    let units = halves.finish()?;
    Ok(Units::of_units(units))
}

/// Takes the units of a piece, where they are live. One unit that is no text stands for many.
fn take_piece(halves: &mut Halves, piece: &RunView<'_>) -> Result<(), NoMemory>
    requires some { 0 < piece.now.len }
    requires within { IsWithin piece.now }
    ensures { OnOk result (TakesIn halves.old halves.new (live_seen (units_of_view piece.now))) }
{
    if piece.deleted {
        return Ok(());
    }
    match piece.content {
        Content::Str(units) => take_text(halves, piece.id, units, piece.offset, piece.len),
        _ => halves.take(Seen {
            id: piece.id,
            unit: None,
        }),
    }
}

/// Takes so many text units from one on, the first of which has the id.
fn take_text(
    halves: &mut Halves,
    id: Id,
    units: &Units,
    offset: u64,
    len: u64,
) -> Result<(), NoMemory>
    requires within { offset + len ≤ length units.now }
    requires ids { IsClock (id.clock + len) }
    ensures { OnOk result (TakesIn halves.old halves.new
        (seen_from id (take len (drop offset units.now)))) }
{
    // The number of units is in range, and so is each place.
    let _len = units.len();
    for i in 0..len {
        let id = Id {
            client: id.client,
            clock: id.clock + i,
        };
        let unit = units.unit(offset + i);
        halves.take(Seen { id, unit })?;
    }
    Ok(())
}
