//! The numbers of a message, and its body, as they stand.

ghost use Rattle.yd_parts.specs.Fault.{Gives, TakesNoMemory};
ghost use Rattle.yd_parts.specs.Part.{last_spot, part_at};
ghost use Rattle.yd_parts.specs.Plan.{read_by};
ghost use Rattle.yd_sync.specs.Envelope.{body_plan, envelope_plan};

use crate::kind::{Kind, outer_kind, sync_kind};
use yd_parts::{Parts, ReadError};

/// What a message is, and the bytes of its body, if it has one.
#[derive(Clone, Copy)]
pub(crate) struct Envelope<'a> {
    pub kind: Kind,
    pub body: &'a [u8],
}

/// Reads the numbers of a message, and lends its body. It takes no memory.
#[tactic(auto, unfolding(crate::specs::Envelope::envelope_plan, yd_parts::specs::Plan::read_by))]
pub(crate) fn read_envelope<'a>(parts: &mut Parts<'a>) -> Result<Envelope<'a>, ReadError>
    ensures given { Gives (λ e. (e.kind, e.body.now)) result parts.new
        (read_by part_at last_spot envelope_plan parts.old) }
    ensures memory { TakesNoMemory result }
{
    let outer = parts.unsigned()?;
    if outer == 0 {
        let inner = parts.unsigned()?;
        return read_body(parts, sync_kind(inner));
    }
    read_body(parts, outer_kind(outer))
}

#[tactic(auto, unfolding(yd_parts::specs::Plan::read_by))]
fn read_body<'a>(parts: &mut Parts<'a>, kind: Kind) -> Result<Envelope<'a>, ReadError>
    ensures given { Gives (λ e. (e.kind, e.body.now)) result parts.new
        (read_by part_at last_spot (body_plan kind) parts.old) }
    ensures memory { TakesNoMemory result }
{
    match kind {
        Kind::Step1 | Kind::Step2 | Kind::Change | Kind::Aware => {
            let body = parts.blob()?;
            Ok(Envelope { kind, body })
        }
        Kind::Auth | Kind::Query | Kind::Other(_) => Ok(Envelope { kind, body: &[] }),
    }
}
