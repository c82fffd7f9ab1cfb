//! Reading origins, lists and kinds of types.

ghost use Rattle.std.specs.Prelude.{Some};
ghost use Rattle.yd_parts.specs.Fault.{Gives};
ghost use Rattle.yd_fields.specs.Field as field;
ghost use Rattle.yd_parts.specs.Plan.{read_by};
ghost use Rattle.yd_fields.specs.StructPlan.{carried_plan, kind_plan, list_plan, optional_plan, parent_plan, type_plan};

use crate::texts::Texts;
use yd_any::Text;
use yd_fields::{FieldReader, TypeKind, kind_of_number};
use yd_ids::Id;
use yd_ops::{Kind, List, Parent};
use yd_parts::{Cause, ReadError};

/// A left origin, where it is there.
#[tactic(auto, unfolding(yd_parts::specs::Plan::read_by))]
pub fn read_left<'a, R: FieldReader<'a>>(
    reader: &mut R,
    is_there: bool,
) -> Result<Option<Id>, ReadError>
    ensures { Gives (λ id. id) result reader.new
        (read_by R.field_at R.spot_of (optional_plan field.left is_there) reader.old) }
{
    if is_there {
        let id = reader.get_left()?;
        return Ok(Some(id));
    }
    Ok(None)
}

/// A right origin, where it is there.
#[tactic(auto, unfolding(yd_parts::specs::Plan::read_by))]
pub fn read_right<'a, R: FieldReader<'a>>(
    reader: &mut R,
    is_there: bool,
) -> Result<Option<Id>, ReadError>
    ensures { Gives (λ id. id) result reader.new
        (read_by R.field_at R.spot_of (optional_plan field.right is_there) reader.old) }
{
    if is_there {
        let id = reader.get_right()?;
        return Ok(Some(id));
    }
    Ok(None)
}

#[tactic(auto, unfolding(yd_parts::specs::Plan::read_by))]
fn read_list_key<'a, R: FieldReader<'a>>(
    texts: &mut Texts,
    reader: &mut R,
    is_there: bool,
) -> Result<Option<Text>, ReadError>
    ensures { Gives (λ key. key) result reader.new
        (read_by R.field_at R.spot_of (optional_plan field.string is_there) reader.old) }
{
    if is_there {
        let key = reader.get_string()?;
        return Ok(Some(texts.text(key)?));
    }
    Ok(None)
}

#[tactic(auto, unfolding(yd_parts::specs::Plan::read_by, yd_fields::specs::StructPlan::parent_plan))]
fn read_parent<'a, R: FieldReader<'a>>(
    texts: &mut Texts,
    reader: &mut R,
) -> Result<Parent, ReadError>
    ensures { Gives (λ parent. parent) result reader.new
        (read_by R.field_at R.spot_of parent_plan reader.old) }
{
    let flag = reader.get_flag()?;
    if flag == 1 {
        let name = reader.get_string()?;
        return Ok(Parent::Root(texts.text(name)?));
    }
    let id = reader.get_left()?;
    Ok(Parent::Item(id))
}

#[tactic(auto, using(crate::proofs::StructPlanLemmas::read_list_plan))]
fn read_list<'a, R: FieldReader<'a>>(
    texts: &mut Texts,
    reader: &mut R,
    is_keyed: bool,
) -> Result<List, ReadError>
    ensures { Gives Some result reader.new
        (read_by R.field_at R.spot_of (list_plan is_keyed) reader.old) }
{
    let parent = read_parent(texts, reader)?;
    let key = read_list_key(texts, reader, is_keyed)?;
    Ok(List { parent, key })
}

/// The list that an item carries exactly where it has no origin.
#[tactic(auto, unfolding(yd_parts::specs::Plan::read_by))]
pub fn read_carried<'a, R: FieldReader<'a>>(
    texts: &mut Texts,
    reader: &mut R,
    is_keyed: bool,
    left: Option<Id>,
    right: Option<Id>,
) -> Result<Option<List>, ReadError>
    ensures { Gives (λ list. list) result reader.new
        (read_by R.field_at R.spot_of (carried_plan is_keyed left right) reader.old) }
{
    if left.is_some() || right.is_some() {
        return Ok(None);
    }
    let list = read_list(texts, reader, is_keyed)?;
    Ok(Some(list))
}

/// The kind of a type.
#[tactic(auto, unfolding(yd_parts::specs::Plan::read_by, yd_fields::specs::StructPlan::kind_plan))]
pub fn read_kind<'a, R: FieldReader<'a>>(
    texts: &mut Texts,
    reader: &mut R,
) -> Result<Kind, ReadError>
    ensures { Gives (λ kind. kind) result reader.new
        (read_by R.field_at R.spot_of kind_plan reader.old) }
{
    let number = reader.get_kind()?;
    match kind_of_number(number) {
        None => Err(ReadError::Fault {
            cause: Cause::BadType,
            spot: reader.spot(),
        }),
        Some(kind) => read_type(texts, reader, kind),
    }
}

// What stands behind the number of a type.
#[tactic(auto, unfolding(yd_parts::specs::Plan::read_by))]
fn read_type<'a, R: FieldReader<'a>>(
    texts: &mut Texts,
    reader: &mut R,
    kind: TypeKind,
) -> Result<Kind, ReadError>
    ensures { Gives (λ found. found) result reader.new
        (read_by R.field_at R.spot_of (type_plan kind) reader.old) }
{
    match kind {
        TypeKind::Array => Ok(Kind::Array),
        TypeKind::Map => Ok(Kind::Map),
        TypeKind::Text => Ok(Kind::Text),
        TypeKind::Element => Ok(Kind::Element(texts.text(reader.get_key()?)?)),
        TypeKind::Fragment => Ok(Kind::Fragment),
        TypeKind::Hook => Ok(Kind::Hook(texts.text(reader.get_key()?)?)),
        TypeKind::ElementText => Ok(Kind::ElementText),
    }
}
