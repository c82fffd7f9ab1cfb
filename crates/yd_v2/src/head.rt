//! The head of a file in V2: a flag, and the bytes of nine columns.

ghost use Rattle.std.specs.Prelude.{◌≡◌};
ghost use Rattle.yd_parts.specs.Fault.{Gives, TakesNoMemory};
ghost use Rattle.yd_parts.specs.Part.{last_spot, part_at};
ghost use Rattle.yd_parts.specs.Plan.{read_by};
ghost use Rattle.yd_v2.specs.HeadView.{columns_of};
ghost use Rattle.yd_v2.specs.Reading.{columns_plan, head_plan};

use yd_parts::{Cause, Parts, ReadError};

/// The bytes of the columns, in their order.
#[derive(Clone, Copy)]
pub struct Head<'a> {
    pub keys: &'a [u8],
    pub clients: &'a [u8],
    pub lefts: &'a [u8],
    pub rights: &'a [u8],
    pub infos: &'a [u8],
    pub strings: &'a [u8],
    pub parents: &'a [u8],
    pub kinds: &'a [u8],
    pub lengths: &'a [u8],
}

/// Reads the flag, which is 0, and cuts the columns.
#[tactic(auto, unfolding(crate::specs::Reading::head_plan, yd_parts::specs::Plan::read_by))]
pub fn read_head<'a>(parts: &mut Parts<'a>) -> Result<Head<'a>, ReadError>
    ensures given { Gives columns_of result parts.new
        (read_by part_at last_spot head_plan parts.old) }
    ensures memory { TakesNoMemory result }
{
    let flag = parts.unsigned()?;
    if flag != 0 {
        return Err(ReadError::Fault {
            cause: Cause::BadFlag,
            spot: parts.spot(),
        });
    }
    read_columns(parts)
}

#[tactic(auto, unfolding(crate::specs::Reading::columns_plan, yd_parts::specs::Plan::read_by))]
fn read_columns<'a>(parts: &mut Parts<'a>) -> Result<Head<'a>, ReadError>
    ensures given { Gives columns_of result parts.new
        (read_by part_at last_spot columns_plan parts.old) }
    ensures memory { TakesNoMemory result }
{
    let keys = parts.blob()?;
    let clients = parts.blob()?;
    let lefts = parts.blob()?;
    let rights = parts.blob()?;
    let infos = parts.blob()?;
    let strings = parts.blob()?;
    let parents = parts.blob()?;
    let kinds = parts.blob()?;
    let lengths = parts.blob()?;
    Ok(Head {
        keys,
        clients,
        lefts,
        rights,
        infos,
        strings,
        parents,
        kinds,
        lengths,
    })
}
