//! Reading any-values.

ghost use Rattle.std.specs.Prelude.{◌≡◌, ◌≤◌, ◌<◌, Some, Ok, IfOk, IsTrue, OnOk};
ghost use Rattle.yd_any.specs.AnyView.{any_tree, any_trees, any_fields};
ghost use Rattle.yd_any.specs.Valid.{is_valid_any};
ghost use Rattle.yd_parts.specs.AnyPlan.{any_plan, inner_plan, field_step, list_plan, pairs_plan, tagged_plan, tree_step, whole_plan};
ghost use Rattle.yd_parts.specs.Fault.{Gives, FailsAs};
ghost use Rattle.yd_parts.specs.Part.{part_at, last_spot};
ghost use Rattle.yd_parts.specs.Plan.{read_by};

use crate::fault::{Cause, ReadError, Spot};
use crate::parts::Parts;
use crate::tag::{Tag, tag_of_byte};
use std::alloc::Global;
use yd_any::{Any, AnyList, AnyPairs, Blob, Text};

/// How deep lists and objects may nest.
const MOST_DEPTH: u64 = 100;

/// The greatest magnitude of a whole number.
const MOST_WHOLE: u64 = (1 << 53) - 1;

/// Reads an any-value (lib0, readAny; the limits are own). What is left to read after an error is
/// left open.
pub fn read_any(alloc: Global, parts: &mut Parts<'_>) -> Result<Any, ReadError>
    ensures given { Gives any_tree result parts.new
        (read_by part_at last_spot (any_plan 100) parts.old) }
    ensures valid { IfOk result (λ value. IsTrue (is_valid_any (any_tree value))) }
{
    let value = read_within(alloc, parts, MOST_DEPTH)?;
    Ok(value)
}

// An any-value in which lists and objects nest at most so deep.
#[cycle(reading)]
#[tactic(auto, using(crate::proofs::AnyPlanLemmas::read_any_plan))]
fn read_within(alloc: Global, parts: &mut Parts<'_>, most: u64) -> Result<Any, ReadError>
    requires { most ≤ 100 }
    ensures { Gives any_tree result parts.new
        (read_by part_at last_spot (any_plan most) parts.old) }
{
    let byte = parts.byte()?;
    let spot = parts.spot();
    match tag_of_byte(byte) {
        None => Err(refused(Cause::BadTag, spot)),
        Some(tag) => read_tagged(alloc, parts, most, tag, spot),
    }
}

fn refused(cause: Cause, spot: Spot) -> ReadError
    ensures { result ≡ ReadError.Fault cause spot }
{
    ReadError::Fault { cause, spot }
}

// What stands behind a tag.
#[cycle(reading)]
#[tactic(auto, unfolding(crate::specs::Plan::read_by))]
fn read_tagged(
    alloc: Global,
    parts: &mut Parts<'_>,
    most: u64,
    tag: Tag,
    spot: Spot,
) -> Result<Any, ReadError>
    requires { most ≤ 100 }
    ensures { Gives any_tree result parts.new
        (read_by part_at last_spot (tagged_plan (inner_plan most) spot (Some tag)) parts.old) }
{
    match tag {
        Tag::Undefined => Ok(Any::Undefined),
        Tag::Null => Ok(Any::Null),
        Tag::Whole => read_whole(parts),
        Tag::Raw4 => Ok(Any::Raw4(parts.raw::<4>()?)),
        Tag::Raw8 => Ok(Any::Raw8(parts.raw::<8>()?)),
        Tag::Big => Ok(Any::Big(i64::from_be_bytes(parts.raw::<8>()?))),
        Tag::False => Ok(Any::Flag(false)),
        Tag::True => Ok(Any::Flag(true)),
        Tag::Str => Ok(Any::Str(Text::copy_of(alloc, parts.text()?)?)),
        Tag::Pairs => Ok(Any::Pairs(read_pairs(alloc, parts, most, spot)?)),
        Tag::List => Ok(Any::List(read_list(alloc, parts, most, spot)?)),
        Tag::Blob => Ok(Any::Blob(Blob::copy_of(alloc, parts.blob()?)?)),
    }
}

#[tactic(auto, unfolding(crate::specs::AnyPlan::whole_plan, crate::specs::Plan::read_by))]
fn read_whole(parts: &mut Parts<'_>) -> Result<Any, ReadError>
    ensures { Gives any_tree result parts.new (read_by part_at last_spot whole_plan parts.old) }
{
    let number = parts.signed()?;
    if number.size > MOST_WHOLE {
        return Err(refused(Cause::NumberTooLarge, parts.spot()));
    }
    let size = number.size as i64;
    Ok(Any::Whole(if number.negative { -size } else { size }))
}

#[cycle(reading)]
#[tactic(auto, using(crate::proofs::AnyPlanLemmas::read_list_plan))]
fn read_list(
    alloc: Global,
    parts: &mut Parts<'_>,
    most: u64,
    spot: Spot,
) -> Result<AnyList, ReadError>
    requires { most ≤ 100 }
    ensures { Gives any_trees result parts.new
        (read_by part_at last_spot (list_plan (inner_plan most) spot) parts.old) }
{
    if most == 0 {
        #[tactic(auto, using(crate::proofs::AnyPlanLemmas::read_list_refused))]
        return Err(refused(Cause::TooDeep, spot));
    }
    let count = parts.unsigned()?;
    let mut items = AnyList::new(alloc);
    for _ in 0..count {
        read_item(alloc, parts, most - 1, &mut items)?;
    }
    Ok(items)
}

#[cycle(reading)]
#[tactic(auto, using(crate::proofs::AnyPlanLemmas::read_tree_step))]
fn read_item(
    alloc: Global,
    parts: &mut Parts<'_>,
    most: u64,
    items: &mut AnyList,
) -> Result<(), ReadError>
    requires { most < 100 }
    ensures taken { OnOk result
        (read_by part_at last_spot (tree_step (any_plan most) (any_trees items.old)) parts.old
        ≡ Ok (any_trees items.new, parts.new)) }
    ensures fails { FailsAs result
        (read_by part_at last_spot (tree_step (any_plan most) (any_trees items.old)) parts.old) }
{
    let item = read_within(alloc, parts, most)?;
    items.push(item)?;
    Ok(())
}

#[cycle(reading)]
#[tactic(auto, using(crate::proofs::AnyPlanLemmas::read_pairs_plan))]
fn read_pairs(
    alloc: Global,
    parts: &mut Parts<'_>,
    most: u64,
    spot: Spot,
) -> Result<AnyPairs, ReadError>
    requires { most ≤ 100 }
    ensures { Gives any_fields result parts.new
        (read_by part_at last_spot (pairs_plan (inner_plan most) spot) parts.old) }
{
    if most == 0 {
        #[tactic(auto, using(crate::proofs::AnyPlanLemmas::read_pairs_refused))]
        return Err(refused(Cause::TooDeep, spot));
    }
    let count = parts.unsigned()?;
    let mut entries = AnyPairs::new(alloc);
    for _ in 0..count {
        read_entry(alloc, parts, most - 1, &mut entries)?;
    }
    Ok(entries)
}

#[cycle(reading)]
#[tactic(auto, using(crate::proofs::AnyPlanLemmas::read_field_step))]
fn read_entry(
    alloc: Global,
    parts: &mut Parts<'_>,
    most: u64,
    entries: &mut AnyPairs,
) -> Result<(), ReadError>
    requires { most < 100 }
    ensures taken { OnOk result
        (read_by part_at last_spot (field_step (any_plan most) (any_fields entries.old)) parts.old
        ≡ Ok (any_fields entries.new, parts.new)) }
    ensures fails { FailsAs result (read_by part_at last_spot
        (field_step (any_plan most) (any_fields entries.old)) parts.old) }
{
    let key = parts.text()?;
    let item = read_within(alloc, parts, most)?;
    entries.push((Text::copy_of(alloc, key)?, item))?;
    Ok(())
}
