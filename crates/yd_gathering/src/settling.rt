//! Updates that were put off, gathered at the end.

ghost use Rattle.std.specs.Prelude.{List, map, IfOk, IfSome};
ghost use Rattle.yd_words.specs.Each.{Each};
ghost use Rattle.yd_ops.specs.Valid.{IsValidUpdate};
ghost use Rattle.yd_ops.specs.View.{update_value};
ghost use Rattle.yd_gathering.specs.Late.{AreBodies};
ghost use Rattle.yd_gathering.specs.Settled.{Settles};

use crate::late::Late;
use std::alloc::Global;
use yd_merge::are_apart;
use yd_ops::Update;
use yd_parts::NoMemory;
use yd_v1::UpdateList;

/// Updates that say behind these what was put off behind them. They are gathered in the order of
/// their ids where none is there twice, since then no order matters, and else as they came.
pub fn settled(alloc: Global, before: &[Update], late: &Late) -> Result<UpdateList, NoMemory>
    requires before { Each IsValidUpdate (map update_value before.now) }
    requires late { AreBodies late.now }
    ensures { IfOk result (λ list.
        Settles (map update_value before.now) late.now (map update_value list)) }
{
    if let Some(list) = settled_by_id(alloc, before, late)? {
        return Ok(list);
    }
    let list = late.gathered(alloc, late.places())?;
    Ok(list)
}

// The same in the order of their ids, if none is there twice.
fn settled_by_id(
    alloc: Global,
    before: &[Update],
    late: &Late,
) -> Result<Option<UpdateList>, NoMemory>
    requires before { Each IsValidUpdate (map update_value before.now) }
    requires late { AreBodies late.now }
    ensures { IfOk result (λ found. IfSome found (λ list.
        Settles (map update_value before.now) late.now (map update_value list))) }
{
    let places = late.places_by_id(alloc)?;
    let list = late.gathered(alloc, &places)?;
    let Ok(apart) = are_apart(alloc, before, list.as_slice()) else {
        return Err(NoMemory);
    };
    if apart {
        return Ok(Some(list));
    }
    Ok(None)
}
