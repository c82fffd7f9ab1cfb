//! The number of the list that units are of.

ghost use Rattle.std.specs.Prelude.{◌≡◌, true, false, None, Some, is_some, IfSome, IfOk};
ghost use Rattle.yd_meaning.specs.Order.{list_or_root};
ghost use Rattle.yd_entries.specs.Entries.{IsTakenOf, GrowBy, carried_of};
ghost use Rattle.yd_held.specs.Numbered.{number_of};
ghost use Rattle.yd_held.specs.Numbering.{NumbersName, NumbersEntry};

use crate::fault::NoMemory;
use yd_ids::Id;
use yd_names::Names;
use yd_ops::{List, Run};
use yd_received::{Entry, Place, Received};

/// The number of the list that units without origins carry. One whose name is new is added at the end.
pub(crate) fn number_carried(
    runs: &[Run],
    names: &mut Names,
    entry: Entry,
) -> Result<usize, NoMemory>
    requires entry { IsTakenOf runs.now entry }
    requires told { entry.is_gone ≡ false }
    requires left { entry.left ≡ None }
    requires right { entry.right ≡ None }
    ensures number { IfOk result (λ n. NumbersName (list_or_root (carried_of runs.now entry))
        names.old names.new n) }
    ensures grows { GrowBy names.old names.new }
{
    match &runs[entry.run].list {
        Some(name) => {
            let number = number_named(names, name)?;
            Ok(number)
        }
        None => unreachable!(),
    }
}

/// The number of the list with a name, which is added at the end where it is new.
fn number_named(names: &mut Names, name: &List) -> Result<usize, NoMemory>
    ensures number { IfOk result (λ n. NumbersName name.now
        names.old names.new n) }
    ensures grows { GrowBy names.old names.new }
{
    if let Some(number) = names.number_of(name) {
        return Ok(number);
    }
    let number = names.len();
    names.push(name.copy()?)?;
    Ok(number)
}
