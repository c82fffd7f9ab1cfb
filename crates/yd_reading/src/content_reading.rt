//! Reading the contents of items.

ghost use Rattle.std.specs.Prelude.{◌≡◌, [], map, Ok, IfOk, IsTrue, OnOk};
ghost use Rattle.yd_any.specs.Tree.{no_trees};
ghost use Rattle.yd_any.specs.AnyView.{any_tree, any_trees};
ghost use Rattle.yd_any.specs.Valid.{is_valid_any};
ghost use Rattle.yd_ops.specs.View.{content_value, unit_value};
ghost use Rattle.yd_parts.specs.Fault.{FailsAs, Gives};
ghost use Rattle.yd_fields.specs.Field as field;
ghost use Rattle.yd_parts.specs.Plan.{read_by, repeated};
ghost use Rattle.yd_fields.specs.StructPlan.{content_plan, deleted_plan, nested_plan, unit_step, units_plan, value_step, values_plan};

use crate::json_making::unit_of_text;
use crate::list_reading::read_kind;
use crate::texts::Texts;
use std::alloc::Global;
use yd_any::{Any, AnyList, Blob};
use yd_fields::{ContentKind, FieldReader};
use yd_ops::{Content, JsonUnits};
use yd_parts::{Cause, ReadError, Spot};
use yd_units::Units;

/// Reads an any-value as a field of its own, in the format of the reader.
pub fn read_any_field<'a, R: FieldReader<'a>>(
    alloc: Global,
    reader: &mut R,
) -> Result<Any, ReadError>
    ensures given { Gives any_tree result reader.new (R.field_at field.any reader.old) }
    ensures valid { IfOk result (λ value. IsTrue (is_valid_any (any_tree value))) }
{
    reader.get_any(alloc)
}

/// The content of an item that began at a spot.
#[inline(always)]
#[tactic(auto, unfolding(yd_parts::specs::Plan::read_by, yd_fields::specs::StructPlan::content_plan))]
pub fn read_content<'a, R: FieldReader<'a>>(
    texts: &mut Texts,
    reader: &mut R,
    kind: ContentKind,
    begin: Spot,
) -> Result<Content, ReadError>
    ensures { Gives content_value result reader.new
        (read_by R.field_at R.spot_of (content_plan kind begin) reader.old) }
{
    match kind {
        ContentKind::Deleted => read_deleted(reader, begin),
        ContentKind::Json => read_units(texts.alloc(), reader, begin),
        ContentKind::Binary => {
            let bytes = reader.get_blob()?;
            Ok(Content::Binary(Blob::copy_of(texts.alloc(), bytes)?))
        }
        ContentKind::Str => {
            let text = reader.get_string()?;
            if text.is_empty() {
                return Err(empty_struct(begin));
            }
            Ok(Content::Str(Units::from_text(texts.alloc(), text)?))
        }
        ContentKind::Embed => {
            let value = reader.get_json(texts.alloc())?;
            Ok(Content::Embed(value))
        }
        ContentKind::Format => {
            let key = reader.get_key()?;
            let value = reader.get_json(texts.alloc())?;
            let key = texts.text(key)?;
            Ok(Content::Format { key, value })
        }
        ContentKind::Nested => read_nested(texts, reader),
        ContentKind::Any => read_values(texts.alloc(), reader, begin),
    }
}

/// A struct that began at a spot has no units.
pub fn empty_struct(begin: Spot) -> ReadError
    ensures { result ≡ ReadError.Fault Cause.EmptyStruct begin }
{
    ReadError::Fault {
        cause: Cause::EmptyStruct,
        spot: begin,
    }
}

#[tactic(auto, unfolding(yd_parts::specs::Plan::read_by, yd_fields::specs::StructPlan::deleted_plan))]
fn read_deleted<'a, R: FieldReader<'a>>(reader: &mut R, begin: Spot) -> Result<Content, ReadError>
    ensures { Gives content_value result reader.new
        (read_by R.field_at R.spot_of (deleted_plan begin) reader.old) }
{
    let count = reader.get_length()?;
    if count == 0 {
        return Err(empty_struct(begin));
    }
    Ok(Content::Deleted(count))
}

#[tactic(auto, using(crate::proofs::ContentPlanLemmas::read_nested_plan))]
fn read_nested<'a, R: FieldReader<'a>>(
    texts: &mut Texts,
    reader: &mut R,
) -> Result<Content, ReadError>
    ensures { Gives content_value result reader.new
        (read_by R.field_at R.spot_of nested_plan reader.old) }
{
    let kind = read_kind(texts, reader)?;
    Ok(Content::Nested(kind))
}

#[tactic(auto, using(crate::proofs::ContentPlanLemmas::read_units_plan))]
fn read_units<'a, R: FieldReader<'a>>(
    alloc: Global,
    reader: &mut R,
    begin: Spot,
) -> Result<Content, ReadError>
    ensures { Gives content_value result reader.new
        (read_by R.field_at R.spot_of (units_plan begin) reader.old) }
{
    let count = reader.get_length()?;
    if count == 0 {
        return Err(empty_struct(begin));
    }
    let units = read_unit_list(alloc, reader, count)?;
    Ok(Content::Json(units))
}

fn read_unit_list<'a, R: FieldReader<'a>>(
    alloc: Global,
    reader: &mut R,
    count: u64,
) -> Result<JsonUnits, ReadError>
    ensures { Gives (λ units. map unit_value units) result reader.new
        (read_by R.field_at R.spot_of (repeated unit_step count []) reader.old) }
{
    let mut units = JsonUnits::new(alloc);
    for _ in 0..count {
        read_unit(alloc, reader, &mut units)?;
    }
    Ok(units)
}

#[tactic(auto, using(crate::proofs::ContentPlanLemmas::next_unit))]
fn read_unit<'a, R: FieldReader<'a>>(
    alloc: Global,
    reader: &mut R,
    units: &mut JsonUnits,
) -> Result<(), ReadError>
    ensures taken { OnOk result (read_by R.field_at R.spot_of
        (unit_step (map unit_value units.old)) reader.old
        ≡ Ok (map unit_value units.new, reader.new)) }
    ensures fails { FailsAs result (read_by R.field_at R.spot_of
        (unit_step (map unit_value units.old)) reader.old) }
{
    let text = reader.get_string()?;
    let unit = unit_of_text(alloc, text, reader.spot())?;
    units.push(unit)?;
    Ok(())
}

#[tactic(auto, using(crate::proofs::ContentPlanLemmas::read_values_plan))]
fn read_values<'a, R: FieldReader<'a>>(
    alloc: Global,
    reader: &mut R,
    begin: Spot,
) -> Result<Content, ReadError>
    ensures { Gives content_value result reader.new
        (read_by R.field_at R.spot_of (values_plan begin) reader.old) }
{
    let count = reader.get_length()?;
    if count == 0 {
        return Err(empty_struct(begin));
    }
    let values = read_value_list(alloc, reader, count)?;
    Ok(Content::Any(values))
}

fn read_value_list<'a, R: FieldReader<'a>>(
    alloc: Global,
    reader: &mut R,
    count: u64,
) -> Result<AnyList, ReadError>
    ensures { Gives any_trees result reader.new
        (read_by R.field_at R.spot_of (repeated value_step count no_trees) reader.old) }
{
    let mut values = AnyList::new(alloc);
    for _ in 0..count {
        read_value(alloc, reader, &mut values)?;
    }
    Ok(values)
}

#[tactic(auto, unfolding(yd_parts::specs::Plan::read_by, yd_fields::specs::StructPlan::value_step))]
fn read_value<'a, R: FieldReader<'a>>(
    alloc: Global,
    reader: &mut R,
    values: &mut AnyList,
) -> Result<(), ReadError>
    ensures taken { OnOk result (read_by R.field_at R.spot_of
        (value_step (any_trees values.old)) reader.old ≡ Ok (any_trees values.new, reader.new)) }
    ensures fails { FailsAs result (read_by R.field_at R.spot_of
        (value_step (any_trees values.old)) reader.old) }
{
    let value = read_any_field(alloc, reader)?;
    values.push(value)?;
    Ok(())
}
