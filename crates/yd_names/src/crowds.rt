//! Crowds: numbers of names that found no room in their slots, in an order of the names.

ghost use Rattle.std.specs.Prelude.{◌≡◌, ℕ, filter, nat_lt, IfSome, IfNone, OnOk, OnErr};
ghost use Rattle.std.specs.declared.cmp.Ordering.TheVariants.{Equal};
ghost use Rattle.yd_ops.specs.declared.lists.List.{List as DocList};
ghost use Rattle.yd_names.specs.Crowds.{IsCrowd, IsJoined, IsPlace, IsTied};

use crate::slots::narrowed;
use crate::sought::Sought;
use yd_ops::{List, NoMemory};

/// The number of a name in a crowd that is as what is looked for. It takes a bisection.
pub(crate) fn number_in_crowd<S: Sought>(crowd: &[u32], names: &[List], sought: &S) -> Option<usize>
    requires { IsCrowd S.cmp names.now crowd.now }
    ensures there { IfSome result (IsTied S.cmp names.now crowd.now (S.stands sought.now)) }
    ensures none { IfNone result ((n : ℕ) →
        IsTied S.cmp names.now crowd.now (S.stands sought.now) n → ⊥) }
{
    let place = place_in_crowd(crowd, names, sought);
    if place == crowd.len() {
        return None;
    }
    let number = crowd[place] as usize;
    if sought.compare(&names[number]).is_eq() {
        return Some(number);
    }
    None
}

/// The number of one name more joins a crowd. It takes a bisection, and the greater ones move.
pub(crate) fn join_crowd<S: Sought>(
    crowd: &mut Vec<u32>,
    names: &[List],
    sought: &S,
) -> Result<(), NoMemory>
    requires { IsCrowd S.cmp names.now crowd.old.items }
    ensures joined { OnOk result ((name : DocList) → S.cmp name (S.stands sought.now) ≡ Equal →
        IsJoined S.cmp names.now name crowd.old.items crowd.new.items) }
    ensures unchanged { OnErr result (crowd.new.items ≡ crowd.old.items) }
{
    let number = narrowed(names.len())?;
    let place = place_in_crowd(crowd, names, sought);
    crowd.insert(place, number)?;
    Ok(())
}

/// Keeps the numbers alone that are below another.
pub(crate) fn keep_below(crowd: &mut Vec<u32>, len: usize)
    ensures { crowd.new.items ≡ filter (λ n. nat_lt n len) crowd.old.items }
{
    crowd.retain(|number| (*number as usize) < len);
}

/// The place in a crowd where what is looked for stands, or is to stand.
fn place_in_crowd<S: Sought>(crowd: &[u32], names: &[List], sought: &S) -> usize
    requires { IsCrowd S.cmp names.now crowd.now }
    ensures { IsPlace S.cmp names.now crowd.now (S.stands sought.now) result }
{
    let mut low = 0;
    let mut high = crowd.len();
    while low < high {
        let middle = low + (high - low) / 2;
        if sought.compare(&names[crowd[middle] as usize]).is_lt() {
            low = middle + 1;
        } else {
            high = middle;
        }
    }
    low
}
