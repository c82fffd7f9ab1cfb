//! Reading structs of which a text is lent.

ghost use Rattle.std.specs.Prelude.{◌+◌, ◌<◌, ◌^◌, IfOk};
ghost use Rattle.yd_ops.specs.Value.{clocks_of, item};
ghost use Rattle.yd_parts.specs.Fault.{Gives};
ghost use Rattle.yd_parts.specs.Plan.{read_by};
ghost use Rattle.yd_fields.specs.Lent.{lent_run, lent_struct};
ghost use Rattle.yd_fields.specs.StructPlan.{content_plan, item_plan, kind_of_info, kinded_plan, struct_plan};
ghost use Rattle.yd_fields.specs.declared.info.ContentKind.TheVariants as kinds;
ghost use Rattle.yd_ops.specs.Value.{string};
ghost use Rattle.yd_units.specs.Text.{units_of};

use crate::content_reading::empty_struct;
use crate::list_reading::{read_carried, read_left, read_right};
use crate::struct_reading::{read_kinded, refused};
use crate::texts::Texts;
use yd_fields::{
    ContentKind, FieldReader, LentRun, LentStruct, LentText, StructKind, has_key, has_left,
    has_right, kind_of_info,
};
use yd_ids::Id;
use yd_ops::ends_at_clock;
use yd_parts::{Cause, ReadError, Spot};

/// The struct of a client that begins at a clock. The text of a run is lent.
#[tactic(auto, using(crate::proofs::StructPlanLemmas::read_struct_plan))]
pub fn read_lent<'a, R: FieldReader<'a>>(
    texts: &mut Texts,
    reader: &mut R,
    id: Id,
) -> Result<LentStruct<'a>, ReadError>
    ensures given { Gives lent_struct result reader.new
        (read_by R.field_at R.spot_of (struct_plan id.client id.clock) reader.old) }
    ensures ends { IfOk result (λ s. id.clock + clocks_of (lent_struct s) < 2 ^ 53) }
{
    let info = reader.get_info()?;
    let begin = reader.spot();
    read_lent_kinded(texts, reader, id, info, begin)
}

#[tactic(auto, unfolding(yd_fields::specs::StructPlan::kinded_plan))]
fn read_lent_kinded<'a, R: FieldReader<'a>>(
    texts: &mut Texts,
    reader: &mut R,
    id: Id,
    info: u8,
    begin: Spot,
) -> Result<LentStruct<'a>, ReadError>
    ensures given { Gives lent_struct result reader.new (read_by R.field_at R.spot_of
        (kinded_plan id.client id.clock info begin (kind_of_info info)) reader.old) }
    ensures ends { IfOk result (λ s. id.clock + clocks_of (lent_struct s) < 2 ^ 53) }
{
    if let StructKind::Item(ContentKind::Str) = kind_of_info(info) {
        let run = read_lent_run(texts, reader, id, info, begin)?;
        return Ok(LentStruct::Text(run));
    }
    let entry = read_kinded(texts, reader, id, info, begin)?;
    Ok(LentStruct::Made(entry))
}

#[tactic(auto, using(crate::proofs::ItemPlanLemmas::read_item_plan))]
fn read_lent_run<'a, R: FieldReader<'a>>(
    texts: &mut Texts,
    reader: &mut R,
    id: Id,
    info: u8,
    begin: Spot,
) -> Result<LentRun<'a>, ReadError>
    ensures given { Gives (λ run. item (lent_run run)) result reader.new
        (read_by R.field_at R.spot_of
        (item_plan id.client id.clock info begin kinds.Str) reader.old) }
    ensures ends { IfOk result (λ run. id.clock + clocks_of (item (lent_run run)) < 2 ^ 53) }
{
    let left = read_left(reader, has_left(info))?;
    let right = read_right(reader, has_right(info))?;
    let list = read_carried(texts, reader, has_key(info), left, right)?;
    let text = read_text(reader, begin)?;
    if !ends_at_clock(id.clock, text.len()) {
        return Err(refused(Cause::ClockTooLarge, begin));
    }
    Ok(LentRun {
        id,
        left,
        right,
        list,
        text,
    })
}

#[tactic(auto, unfolding(yd_parts::specs::Plan::read_by, yd_fields::specs::StructPlan::content_plan))]
fn read_text<'a, R: FieldReader<'a>>(reader: &mut R, begin: Spot) -> Result<LentText<'a>, ReadError>
    ensures { Gives (λ text. string (units_of text)) result reader.new
        (read_by R.field_at R.spot_of (content_plan kinds.Str begin) reader.old) }
{
    let text = reader.get_string()?;
    if text.is_empty() {
        return Err(empty_struct(begin));
    }
    Ok(LentText::new(text))
}
