//! Taking the units of a live piece that holds no type, as values of a list.

ghost use Rattle.std.specs.Prelude.{◌≡◌, ◌≢◌, ◌∷◌, [], ℕ, List, Some, slice_get, ◌+◌, ◌<◌, ◌≤◌, false, length, map, take, drop, OnOk};
ghost use Rattle.yd_any.specs.Tree.{AnyTree};
ghost use Rattle.yd_ids.specs.Id.{IsClock};
ghost use Rattle.yd_ops.specs.declared.kinds.Kind.{Kind};
ghost use Rattle.yd_ops.specs.declared.contents.Content.TheVariants.{Nested, Str};
ghost use Rattle.yd_ops.specs.Operation.{text_unit, units_of_content, Operation};
ghost use Rattle.yd_ops.specs.View.{content_value};
ghost use Rattle.yd_state.specs.Lent.{lent_from, units_of_view, IsWithin};
ghost use Rattle.yd_modes.specs.Roles.{Values, ShowsPlain, ArePlainValues, are_values};
ghost use Rattle.yd_modes.specs.Gathering.{live};
ghost use Rattle.yd_modes.specs.Listed.{Lists};

use crate::fault::NoMemory;
use crate::listed::Listed;
use crate::plain::plain_at;
use std::alloc::Global;
use yd_doc::RunView;
use yd_ids::Id;
use yd_ops::Content;
use yd_units::Units;

/// Takes the units of a live piece that holds no type.
pub fn list_piece(alloc: Global, listed: &mut Listed, piece: &RunView<'_>) -> Result<(), NoMemory>
    requires some { 0 < piece.now.len }
    requires within { IsWithin piece.now }
    requires live { piece.now.deleted ≡ false }
    requires plain { (kind : Kind) → piece.now.content.now ≢ Nested kind }
    ensures { OnOk result ((show : Operation → AnyTree) → ShowsPlain show
        → Lists show listed.old listed.new (units_of_view piece.now)) }
{
    match piece.content {
        Content::Str(units) => list_units(listed, piece.id, units, piece.offset, piece.len),
        _ => list_others(alloc, listed, piece),
    }
}

/// Takes so many text units from one on.
fn list_units(
    listed: &mut Listed,
    id: Id,
    units: &Units,
    offset: u64,
    len: u64,
) -> Result<(), NoMemory>
    requires within { offset + len ≤ length units.now }
    requires ids { IsClock (id.clock + len) }
    ensures { OnOk result ((show : Operation → AnyTree) → Lists show listed.old listed.new
        (lent_from id false (take len (drop offset (map text_unit units.now))))) }
{
    // The number of units is in range, and so is each place.
    let _len = units.len();
    for i in 0..len {
        let id = Id {
            client: id.client,
            clock: id.clock + i,
        };
        list_unit(listed, id, units, offset + i)?;
    }
    Ok(())
}

/// Takes the text unit at a place.
fn list_unit(listed: &mut Listed, id: Id, units: &Units, at: u64) -> Result<(), NoMemory>
    ensures { OnOk result ((show : Operation → AnyTree) (unit : ℕ)
        → slice_get units.now at ≡ Some unit
        → Lists show listed.old listed.new (live id (text_unit unit) ∷ [])) }
{
    match units.unit(at) {
        Some(unit) => listed.take_unit(id, unit),
        None => Ok(()),
    }
}

/// Whether the units of a content that is no text are values of a list, and not types.
fn gives_values(content: &Content) -> bool
    ensures { result ≡ are_values Values content.now }
{
    match content {
        Content::Any(_) => true,
        Content::Json(_) => true,
        Content::Binary(_) => true,
        Content::Embed(_) => true,
        Content::Str(_) => false,
        Content::Format { .. } => false,
        Content::Nested(_) => false,
        Content::Deleted(_) => false,
    }
}

/// Takes live units that are no text and no type: each is a value, or none is.
fn list_others(alloc: Global, listed: &mut Listed, piece: &RunView<'_>) -> Result<(), NoMemory>
    requires some { 0 < piece.now.len }
    requires within { IsWithin piece.now }
    requires live { piece.now.deleted ≡ false }
    requires text { (units : List ℕ) → piece.now.content.now ≢ Str units }
    requires plain { (kind : Kind) → piece.now.content.now ≢ Nested kind }
    ensures { OnOk result ((show : Operation → AnyTree) → ShowsPlain show
        → Lists show listed.old listed.new (units_of_view piece.now)) }
{
    if gives_values(piece.content) {
        return list_values(alloc, listed, piece);
    }
    listed.take_idle(piece.id)
}

/// Takes live units each of which is a value.
fn list_values(alloc: Global, listed: &mut Listed, piece: &RunView<'_>) -> Result<(), NoMemory>
    requires within { IsWithin piece.now }
    ensures { OnOk result ((show : Operation → AnyTree) → ShowsPlain show
        → ArePlainValues Values (units_of_content (content_value piece.now.content.now))
        → Lists show listed.old listed.new (lent_from piece.now.id false
        (take piece.now.len (drop piece.now.offset
        (units_of_content (content_value piece.now.content.now)))))) }
{
    // The number of units is in range, and so is each place.
    let _len = piece.content.len();
    for i in 0..piece.len {
        let id = Id {
            client: piece.id.client,
            clock: piece.id.clock + i,
        };
        let value = plain_at(alloc, piece.content, piece.offset + i)?;
        listed.take_value(alloc, id, value)?;
    }
    Ok(())
}
