//! Taking the units of a live piece that holds no type.

ghost use Rattle.std.specs.Prelude.{◌≡◌, ◌≢◌, ◌∷◌, [], ℕ, Some, slice_get, ◌+◌, ◌<◌, ◌≤◌, true, false, length, map, take, drop, OnOk};
ghost use Rattle.yd_any.specs.Tree.{AnyTree};
ghost use Rattle.yd_ids.specs.Id.{IsClock};
ghost use Rattle.yd_ops.specs.declared.kinds.Kind.{Kind};
ghost use Rattle.yd_ops.specs.declared.contents.Content.TheVariants.{Nested};
ghost use Rattle.yd_ops.specs.Operation.{text_unit, units_of_content, Operation};
ghost use Rattle.yd_ops.specs.View.{content_value};
ghost use Rattle.yd_state.specs.Lent.{lent_from, units_of_view, IsWithin};
ghost use Rattle.yd_modes.specs.Roles.{Way, Delta, ShowsPlain, ArePlainValues, IsOther, are_values};
ghost use Rattle.yd_modes.specs.Marks.{marks_fields};
ghost use Rattle.yd_modes.specs.Gathering.{live, IsSettled, Gathers};

use crate::fault::NoMemory;
use crate::gathering::Gathering;
use crate::marks::Mark;
use crate::plain::plain_at;
use std::alloc::Global;
use yd_doc::RunView;
use yd_ids::Id;
use yd_ops::Content;
use yd_units::Units;

/// Takes the units of a live piece that holds no type.
pub fn take_piece<'a>(
    alloc: Global,
    gathering: &mut Gathering<'a>,
    piece: &RunView<'a>,
) -> Result<(), NoMemory>
    requires some { 0 < piece.now.len }
    requires within { IsWithin piece.now }
    requires live { piece.now.deleted ≡ false }
    requires plain { (kind : Kind) → piece.now.content.now ≢ Nested kind }
    requires settled { IsSettled gathering.old }
    ensures { OnOk result ((show : Operation → AnyTree) → ShowsPlain show
        → Gathers Delta show gathering.old gathering.new (units_of_view piece.now)) }
{
    match piece.content {
        Content::Str(units) => take_text(alloc, gathering, piece, units),
        Content::Format { key, value } => gathering.take_mark(piece.id, Mark { key, value }),
        _ => take_others(alloc, gathering, piece),
    }
}

/// Takes the units of a live piece of text.
fn take_text<'a>(
    alloc: Global,
    gathering: &mut Gathering<'a>,
    piece: &RunView<'a>,
    units: &Units,
) -> Result<(), NoMemory>
    requires some { 0 < piece.now.len }
    requires within { piece.now.offset + piece.now.len ≤ length units.now }
    requires ids { IsClock (piece.now.id.clock + piece.now.len) }
    requires settled { IsSettled gathering.old }
    ensures { OnOk result ((way : Way) (show : Operation → AnyTree)
        → Gathers way show gathering.old gathering.new
        (lent_from piece.now.id false
        (take piece.now.len (drop piece.now.offset (map text_unit units.now))))) }
{
    gathering.open(alloc)?;
    take_units(gathering, piece.id, units, piece.offset, piece.len)
}

/// Takes so many text units from one on, under the attributes of the open text.
fn take_units(
    gathering: &mut Gathering<'_>,
    id: Id,
    units: &Units,
    offset: u64,
    len: u64,
) -> Result<(), NoMemory>
    requires within { offset + len ≤ length units.now }
    requires ids { IsClock (id.clock + len) }
    requires open { marks_fields gathering.old.under.items ≡ marks_fields gathering.old.marks.items }
    ensures { OnOk result ((way : Way) (show : Operation → AnyTree)
        → Gathers way show gathering.old gathering.new
        (lent_from id false (take len (drop offset (map text_unit units.now))))) }
{
    // The number of units is in range, and so is each place.
    let _len = units.len();
    for i in 0..len {
        let id = Id {
            client: id.client,
            clock: id.clock + i,
        };
        take_unit_at(gathering, id, units, offset + i)?;
    }
    Ok(())
}

/// Takes the text unit at a place, under the attributes of the open text.
fn take_unit_at(
    gathering: &mut Gathering<'_>,
    id: Id,
    units: &Units,
    at: u64,
) -> Result<(), NoMemory>
    requires { marks_fields gathering.old.under.items ≡ marks_fields gathering.old.marks.items }
    ensures gathers { OnOk result ((way : Way) (show : Operation → AnyTree) (unit : ℕ)
        → slice_get units.now at ≡ Some unit
        → Gathers way show gathering.old gathering.new (live id (text_unit unit) ∷ [])) }
    ensures open { OnOk result (marks_fields gathering.new.under.items
        ≡ marks_fields gathering.new.marks.items) }
{
    match units.unit(at) {
        Some(unit) => gathering.take_unit(id, unit),
        None => Ok(()),
    }
}

/// Takes live units that are no text, no mark and no type: each is a value, or none is.
fn take_others(
    alloc: Global,
    gathering: &mut Gathering<'_>,
    piece: &RunView<'_>,
) -> Result<(), NoMemory>
    requires some { 0 < piece.now.len }
    requires within { IsWithin piece.now }
    requires live { piece.now.deleted ≡ false }
    requires settled { IsSettled gathering.old }
    requires other { IsOther piece.now.content.now }
    ensures { OnOk result ((show : Operation → AnyTree) → ShowsPlain show
        → Gathers Delta show gathering.old gathering.new (units_of_view piece.now)) }
{
    if gives_values(piece.content) {
        return take_values(alloc, gathering, piece);
    }
    gathering.take_idle(piece.id)
}

/// Whether the units of a content that are no text, no marks and no types are values of a delta.
fn gives_values(content: &Content) -> bool
    ensures { result ≡ are_values Delta content.now }
{
    match content {
        Content::Embed(_) => true,
        _ => false,
    }
}

/// Takes live units each of which is a value.
fn take_values(
    alloc: Global,
    gathering: &mut Gathering<'_>,
    piece: &RunView<'_>,
) -> Result<(), NoMemory>
    requires within { IsWithin piece.now }
    requires settled { IsSettled gathering.old }
    ensures { OnOk result ((way : Way) (show : Operation → AnyTree) → ShowsPlain show
        → ArePlainValues way (units_of_content (content_value piece.now.content.now))
        → Gathers way show gathering.old gathering.new (lent_from piece.now.id false
        (take piece.now.len (drop piece.now.offset
        (units_of_content (content_value piece.now.content.now)))))) }
{
    // The number of units is in range, and so is each place.
    let _len = piece.content.len();
    for i in 0..piece.len {
        let id = Id {
            client: piece.id.client,
            clock: piece.id.clock + i,
        };
        let value = plain_at(alloc, piece.content, piece.offset + i)?;
        gathering.take_value(alloc, id, value)?;
    }
    Ok(())
}
