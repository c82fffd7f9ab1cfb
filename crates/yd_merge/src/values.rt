//! Values in a row, copied one by one.

ghost use Rattle.std.specs.Prelude.{◌≡◌, ◌+◌, ◌<◌, ◌≤◌, length, map, take, drop, IfOk};
ghost use Rattle.yd_words.specs.Each.{Each};
ghost use Rattle.yd_any.specs.AnyView.{any_trees, items_trees};
ghost use Rattle.yd_any.specs.Rows.{first_trees, other_trees};
ghost use Rattle.yd_ids.specs.Id.{IsClock};
ghost use Rattle.yd_ops.specs.Valid.{AreValidTrees, IsValidUnit};
ghost use Rattle.yd_ops.specs.View.{unit_value};

use crate::fault::NoMemory;
use std::alloc::Global;
use yd_any::{Any, AnyList};
use yd_ops::{JsonUnit, JsonUnits};

/// So many any-values, from one on.
pub fn copied_values(
    alloc: Global,
    values: &[Any],
    from: u64,
    len: u64,
) -> Result<AnyList, NoMemory>
    requires within { from + len ≤ length values.now }
    requires fits { IsClock (from + len) }
    requires valid { AreValidTrees (items_trees values.now) }
    ensures { IfOk result (λ part. any_trees part
        ≡ first_trees len (other_trees from (items_trees values.now))) }
{
    let part = all_values(alloc, &values[from as usize..(from + len) as usize])?;
    Ok(part)
}

/// All any-values, in memory of their own.
fn all_values(alloc: Global, values: &[Any]) -> Result<AnyList, NoMemory>
    requires { AreValidTrees (items_trees values.now) }
    ensures { IfOk result (λ copy. any_trees copy ≡ items_trees values.now) }
{
    let mut copy = AnyList::new(alloc);
    for value in values {
        copy.push(value.copy()?)?;
    }
    Ok(copy)
}

/// So many JSON units, from one on.
pub fn copied_json(
    alloc: Global,
    units: &[JsonUnit],
    from: u64,
    len: u64,
) -> Result<JsonUnits, NoMemory>
    requires within { from + len ≤ length units.now }
    requires fits { IsClock (from + len) }
    requires valid { Each IsValidUnit (map unit_value units.now) }
    ensures { IfOk result (λ part. map unit_value part
        ≡ take len (drop from (map unit_value units.now))) }
{
    let part = all_json(alloc, &units[from as usize..(from + len) as usize])?;
    Ok(part)
}

/// All JSON units, in memory of their own.
fn all_json(alloc: Global, units: &[JsonUnit]) -> Result<JsonUnits, NoMemory>
    requires { Each IsValidUnit (map unit_value units.now) }
    ensures { IfOk result (λ copy. map unit_value copy ≡ map unit_value units.now) }
{
    let mut copy = JsonUnits::new(alloc);
    for unit in units {
        copy.push(unit.copy()?)?;
    }
    Ok(copy)
}
