//! What a position points at, read.

ghost use Rattle.std.specs.Prelude.{Some, IfOk, IfSome};
ghost use Rattle.yd_parts.specs.Fault.{Gives};
ghost use Rattle.yd_parts.specs.Part.{last_spot, part_at};
ghost use Rattle.yd_parts.specs.Plan.{read_by};
ghost use Rattle.yd_position.specs.Target.{id_plan, target_plan};
ghost use Rattle.yd_position.specs.Writing.{HasIds};

use crate::position::Target;
use std::alloc::Global;
use yd_any::Text;
use yd_ids::{Client, Id};
use yd_parts::{Parts, ReadError};

/// The first number of a position that points at a unit.
pub(crate) const FORM_UNIT: u8 = 0;

/// At a root's list.
pub(crate) const FORM_ROOT: u8 = 1;

/// At a nested type's list.
pub(crate) const FORM_ITEM: u8 = 2;

/// Reads what a position points at, and nothing where its first number is none of these.
#[tactic(auto, unfolding(crate::specs::Target::target_plan, yd_parts::specs::Plan::read_by))]
pub(crate) fn read_target(alloc: Global, parts: &mut Parts<'_>) -> Result<Option<Target>, ReadError>
    ensures given { Gives (λ target. target) result parts.new
        (read_by part_at last_spot target_plan parts.old) }
    ensures ids { IfOk result (λ target. IfSome target HasIds) }
{
    let form = parts.unsigned()?;
    if form == u64::from(FORM_ROOT) {
        let name = parts.text()?;
        return Ok(Some(Target::Root(Text::copy_of(alloc, name)?)));
    }
    if form > u64::from(FORM_ITEM) {
        return Ok(None);
    }
    let target = read_id(parts, form)?;
    Ok(Some(target))
}

/// Reads an id, its client and its clock, and answers what points by it.
#[tactic(auto, unfolding(yd_parts::specs::Plan::read_by))]
fn read_id(parts: &mut Parts<'_>, form: u64) -> Result<Target, ReadError>
    ensures given { Gives (λ target. Some target) result parts.new
        (read_by part_at last_spot (id_plan form) parts.old) }
    ensures ids { IfOk result HasIds }
{
    let client = parts.unsigned()?;
    let clock = parts.unsigned()?;
    let id = Id {
        client: Client(client),
        clock,
    };
    if form == u64::from(FORM_UNIT) {
        return Ok(Target::Unit(id));
    }
    Ok(Target::Item(id))
}
