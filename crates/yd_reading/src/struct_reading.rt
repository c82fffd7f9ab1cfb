//! Reading structs.

ghost use Rattle.std.specs.Prelude.{◌≡◌, ◌+◌, ◌<◌, ◌^◌, IfOk, OnOk, nat_lt};
ghost use Rattle.yd_ops.specs.Value.{clocks_of};
ghost use Rattle.yd_ops.specs.View.{struct_value};
ghost use Rattle.yd_parts.specs.Fault.{Gives, Makes, TakesNoMemory};
ghost use Rattle.yd_parts.specs.Plan.{read_by};
ghost use Rattle.yd_fields.specs.StructPlan.{gone_plan, item_plan, kind_of_info, kinded_plan, skip_plan, struct_plan};
ghost use Rattle.yd_reading.specs.Judged.{clocks_at};

use crate::content_reading::{empty_struct, read_content};
use crate::list_reading::{read_carried, read_left, read_right};
use crate::texts::Texts;
use yd_fields::{ContentKind, FieldReader, StructKind, has_key, has_left, has_right, kind_of_info};
use yd_ids::Id;
use yd_ops::{Run, Struct, ends_at_clock};
use yd_parts::{Cause, ReadError, Spot};

/// The struct of a client that begins at a clock.
#[tactic(auto, using(crate::proofs::StructPlanLemmas::read_struct_plan))]
pub fn read_struct<'a, R: FieldReader<'a>>(
    texts: &mut Texts,
    reader: &mut R,
    id: Id,
) -> Result<Struct, ReadError>
    ensures given { Gives struct_value result reader.new
        (read_by R.field_at R.spot_of (struct_plan id.client id.clock) reader.old) }
    ensures ends { IfOk result (λ s. id.clock + clocks_of (struct_value s) < 2 ^ 53) }
{
    let info = reader.get_info()?;
    let begin = reader.spot();
    read_kinded(texts, reader, id, info, begin)
}

/// The struct behind its info byte, which stands at a spot.
#[inline(always)]
#[tactic(auto, unfolding(yd_parts::specs::Plan::read_by, yd_fields::specs::StructPlan::kinded_plan))]
pub fn read_kinded<'a, R: FieldReader<'a>>(
    texts: &mut Texts,
    reader: &mut R,
    id: Id,
    info: u8,
    begin: Spot,
) -> Result<Struct, ReadError>
    ensures given { Gives struct_value result reader.new (read_by R.field_at R.spot_of
        (kinded_plan id.client id.clock info begin (kind_of_info info)) reader.old) }
    ensures ends { IfOk result (λ s. id.clock + clocks_of (struct_value s) < 2 ^ 53) }
{
    match kind_of_info(info) {
        StructKind::Gone => read_gone(reader, id.clock, begin),
        StructKind::Item(kind) => read_item(texts, reader, id, info, begin, kind),
        StructKind::Subdocument => Err(refused(Cause::Subdocument, begin)),
        StructKind::Skip => read_skip(reader, id.clock, begin),
        StructKind::Unknown => Err(refused(Cause::BadInfo, begin)),
    }
}

/// A struct that began at a spot is refused.
pub fn refused(cause: Cause, begin: Spot) -> ReadError
    ensures { result ≡ ReadError.Fault cause begin }
{
    ReadError::Fault { cause, spot: begin }
}

#[tactic(auto, unfolding(yd_parts::specs::Plan::read_by, yd_fields::specs::StructPlan::skip_plan))]
fn read_skip<'a, R: FieldReader<'a>>(
    reader: &mut R,
    clock: u64,
    begin: Spot,
) -> Result<Struct, ReadError>
    ensures given { Gives struct_value result reader.new
        (read_by R.field_at R.spot_of (skip_plan clock begin) reader.old) }
    ensures ends { IfOk result (λ s. clock + clocks_of (struct_value s) < 2 ^ 53) }
{
    let count = reader.get_number()?;
    judge_clocks(clock, count, begin)?;
    Ok(Struct::Skip(count))
}

#[tactic(auto, unfolding(yd_parts::specs::Plan::read_by, yd_fields::specs::StructPlan::gone_plan))]
fn read_gone<'a, R: FieldReader<'a>>(
    reader: &mut R,
    clock: u64,
    begin: Spot,
) -> Result<Struct, ReadError>
    ensures given { Gives struct_value result reader.new
        (read_by R.field_at R.spot_of (gone_plan clock begin) reader.old) }
    ensures ends { IfOk result (λ s. clock + clocks_of (struct_value s) < 2 ^ 53) }
{
    let count = reader.get_length()?;
    judge_clocks(clock, count, begin)?;
    Ok(Struct::Gone(count))
}

fn judge_clocks(clock: u64, count: u64, begin: Spot) -> Result<(), ReadError>
    ensures made { Makes (λ judged. judged) result (clocks_at begin clock count) }
    ensures ends { OnOk result (clock + count < 2 ^ 53) }
    ensures memory { TakesNoMemory result }
{
    if count == 0 {
        return Err(empty_struct(begin));
    }
    if !ends_at_clock(clock, count) {
        return Err(refused(Cause::ClockTooLarge, begin));
    }
    Ok(())
}

#[inline(always)]
#[tactic(auto, using(crate::proofs::ItemPlanLemmas::read_item_plan))]
fn read_item<'a, R: FieldReader<'a>>(
    texts: &mut Texts,
    reader: &mut R,
    id: Id,
    info: u8,
    begin: Spot,
    kind: ContentKind,
) -> Result<Struct, ReadError>
    ensures given { Gives struct_value result reader.new (read_by R.field_at R.spot_of
        (item_plan id.client id.clock info begin kind) reader.old) }
    ensures ends { IfOk result (λ s. id.clock + clocks_of (struct_value s) < 2 ^ 53) }
{
    let left = read_left(reader, has_left(info))?;
    let right = read_right(reader, has_right(info))?;
    let list = read_carried(texts, reader, has_key(info), left, right)?;
    let content = read_content(texts, reader, kind, begin)?;
    if !ends_at_clock(id.clock, content.len()) {
        return Err(refused(Cause::ClockTooLarge, begin));
    }
    Ok(Struct::Item(Run {
        id,
        left,
        right,
        list,
        content,
    }))
}
