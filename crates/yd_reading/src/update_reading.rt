//! Reading updates.

ghost use Rattle.std.specs.Prelude.{IfOk};
ghost use Rattle.yd_ops.specs.Valid.{IsValidUpdate};
ghost use Rattle.yd_ops.specs.View.{update_value};
ghost use Rattle.yd_parts.specs.Fault.{Gives};
ghost use Rattle.yd_parts.specs.Plan.{read_by};
ghost use Rattle.yd_fields.specs.UpdatePlan.{update_plan};

use crate::block_reading::read_blocks;
use crate::delete_reading::read_deletes;
use crate::texts::Texts;
use std::alloc::Global;
use yd_fields::FieldReader;
use yd_ops::Update;
use yd_parts::ReadError;

/// Reads an update in the format of the reader, up to its last field (Yjs 13, update decoders).
#[tactic(auto, using(crate::proofs::UpdatePlanLemmas::read_update_plan))]
pub fn read_update<'a, R: FieldReader<'a>>(
    alloc: Global,
    reader: &mut R,
) -> Result<Update, ReadError>
    ensures given { Gives update_value result reader.new
        (read_by R.field_at R.spot_of (update_plan (R.most_of reader.old)) reader.old) }
    ensures valid { IfOk result (λ u. IsValidUpdate (update_value u)) }
{
    // Files lead to every reader: only proofs need to hear it.
    reader.reads_soundly();
    let most = reader.most_structs();
    let count = reader.get_number()?;
    let mut texts = Texts::new(alloc);
    let read = read_blocks(&mut texts, reader, count, most)?;
    let deletes = read_deletes(alloc, reader)?;
    Ok(Update {
        blocks: read.blocks,
        deletes,
    })
}
