//! Parts of runs, in memory of their own.

ghost use Rattle.std.specs.Prelude.{◌≡◌, ◌+◌, ◌<◌, ◌≤◌, [], ◌∷◌, ◌++◌, length, take, drop};
ghost use Rattle.std.specs.Prelude.{slice_get, Some, IfOk, OnOk};
ghost use Rattle.std.specs.Prelude.{unwrap_or};
ghost use Rattle.yd_ids.specs.Id.{IsClock};
ghost use Rattle.yd_ops.specs.Cutting.{content_before, content_behind};
ghost use Rattle.yd_ops.specs.Value.{len_of};
ghost use Rattle.yd_ops.specs.Valid.{IsValidContent};
ghost use Rattle.yd_ops.specs.View.{content_value, run_value};
ghost use Rattle.yd_grouping.specs.Groups.{of_run};
ghost use Rattle.yd_entries.specs.Entries.{IsTakenOf, list_at};
ghost use Rattle.yd_building.specs.Builder.{group_value};
ghost use Rattle.yd_merge.specs.Told.{IsPartOf, content_part, group_of_run, group_of_entry};

use crate::fault::NoMemory;
use crate::values::{copied_json, copied_values};
use std::alloc::Global;
use yd_building::Group;
use yd_ops::{Content, List, Run};
use yd_received::Entry;
use yd_units::Units;

/// What an entry has, in memory of its own.
pub fn group_of(alloc: Global, runs: &[Run], entry: Entry) -> Result<Group, NoMemory>
    requires { IsTakenOf runs.now entry }
    ensures { IfOk result (λ group. group_value group ≡ group_of_entry runs.now entry) }
{
    if entry.is_gone {
        return Ok(Group::Gone(entry.id, entry.len));
    }
    let run = part_of(alloc, &runs[entry.run], entry)?;
    Ok(Group::Run(run))
}

/// An entry's part of its run.
fn part_of(alloc: Global, run: &Run, entry: Entry) -> Result<Run, NoMemory>
    requires { IsPartOf (content_value run.now.content) entry }
    ensures { IfOk result (λ part. of_run (run_value part) ≡ group_of_run entry (Some run.now)) }
{
    let list = carried_by(run, entry.offset)?;
    let content = copied(alloc, &run.content, entry.offset, entry.len)?;
    Ok(Run {
        id: entry.id,
        left: entry.left,
        right: entry.right,
        list,
        content,
    })
}

/// The list that a run's unit carries.
fn carried_by(run: &Run, offset: u64) -> Result<Option<List>, NoMemory>
    ensures { IfOk result (λ list. list ≡ list_at (Some run.now) offset) }
{
    if offset > 0 {
        return Ok(None);
    }
    match &run.list {
        None => Ok(None),
        Some(list) => Ok(Some(list.copy()?)),
    }
}

/// So many units of a content, from an offset on. These alone are copied.
fn copied(alloc: Global, content: &Content, offset: u64, len: u64) -> Result<Content, NoMemory>
    requires some { 0 < len }
    requires within { offset + len ≤ len_of (content_value content.now) }
    requires fits { IsClock (offset + len) }
    requires content { IsValidContent (content_value content.now) }
    ensures { IfOk result (λ part. content_value part
        ≡ content_part offset len (content_value content.now)) }
{
    if len == content.len() {
        // All of it is copied at once.
        let copy = content.copy()?;
        return Ok(copy);
    }
    match content {
        Content::Str(units) => {
            let units = copied_units(alloc, units, offset, len)?;
            Ok(Content::Str(units))
        }
        Content::Any(values) => {
            let values = copied_values(alloc, values.as_slice(), offset, len)?;
            Ok(Content::Any(values))
        }
        Content::Json(units) => {
            let units = copied_json(alloc, units.as_slice(), offset, len)?;
            Ok(Content::Json(units))
        }
        _ => copied_whole(content, offset, len),
    }
}

/// So many units of a text, from one on.
#[tactic(auto, using(crate::proofs::ContentLemmas::part_begins, crate::proofs::ContentLemmas::part_ends))]
fn copied_units(alloc: Global, units: &Units, from: u64, len: u64) -> Result<Units, NoMemory>
    requires within { from + len ≤ length units.now }
    requires fits { IsClock (from + len) }
    ensures { IfOk result (λ part. part ≡ take len (drop from units.now)) }
{
    let mut part = Vec::new(alloc);
    let mut done = 0;
    while done < len {
        push_unit(&mut part, units, from + done)?;
        done += 1;
    }
    Ok(Units::of_units(part))
}

/// Appends the unit at a place.
fn push_unit(part: &mut Vec<u16>, units: &Units, at: u64) -> Result<(), NoMemory>
    ensures { OnOk result (part.new.items
        ≡ part.old.items ++ unwrap_or (slice_get units.now at) 0 ∷ []) }
{
    let unit = units.unit(at).unwrap_or(0);
    part.push(unit)?;
    Ok(())
}

/// The same, by a copy of the whole content that is cut: so it is for one unit, and deleted ones.
fn copied_whole(content: &Content, offset: u64, len: u64) -> Result<Content, NoMemory>
    requires some { 0 < len }
    requires within { offset + len ≤ len_of (content_value content.now) }
    requires content { IsValidContent (content_value content.now) }
    ensures { IfOk result (λ part. content_value part
        ≡ content_part offset len (content_value content.now)) }
{
    let copy = content.copy()?;
    let rest = behind(copy, offset)?;
    let part = before(rest, len)?;
    Ok(part)
}

/// The units of a content from one on.
#[tactic(auto, using(crate::proofs::ContentLemmas::behind_none))]
fn behind(content: Content, n: u64) -> Result<Content, NoMemory>
    requires { n < len_of (content_value content) }
    ensures { IfOk result (λ rest. content_value rest
        ≡ content_behind n (content_value content)) }
{
    if n == 0 {
        return Ok(content);
    }
    let mut content = content;
    let rest = content.split_off(n)?;
    Ok(rest)
}

/// The first units of a content.
#[tactic(auto, using(crate::proofs::ContentLemmas::before_all))]
fn before(content: Content, n: u64) -> Result<Content, NoMemory>
    requires some { 0 < n }
    requires inside { n ≤ len_of (content_value content) }
    ensures { IfOk result (λ first. content_value first
        ≡ content_before n (content_value content)) }
{
    if n == content.len() {
        return Ok(content);
    }
    let mut content = content;
    content.split_off(n)?;
    Ok(content)
}
