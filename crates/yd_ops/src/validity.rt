//! Which contents and updates are valid.

ghost use Rattle.std.specs.Prelude.{◌≡◌, ◌↔◌, ◌+◌, ◌^◌, nat_lt, map, IsTrue, IfSome};
ghost use Rattle.yd_words.specs.Each.{Each};
ghost use Rattle.yd_any.specs.AnyView.{items_trees};
ghost use Rattle.yd_ids.specs.Id.{IsClock, IsId};
ghost use Rattle.yd_ops.specs.View.{unit_value, content_value, run_value};
ghost use Rattle.yd_ops.specs.View.{struct_value, block_value, update_value};
ghost use Rattle.yd_ops.specs.Valid.{IsValidUnit, AreValidTrees, IsValidContent};
ghost use Rattle.yd_ops.specs.Valid.{IsParent, CarriesList, IsRunAt, IsStructAt, AreStructsFrom};
ghost use Rattle.yd_ops.specs.Valid.{IsValidBlock, IsValidUpdate};

use crate::contents::{Content, JsonUnit};
use crate::lists::{List, Parent};
use crate::runs::Run;
use crate::updates::{Block, Struct, Update};
use yd_any::Any;
use yd_ids::{Client, Id};

/// Clients and clocks are below it.
const LIMIT: u64 = 1 << 53;

impl Update {
    /// Whether the update is valid: in each block the structs follow one another from its clock on,
    /// every id and end is at most 2^53-1, a run carries a list exactly where it has no origin, and
    /// every content is valid.
    pub fn is_valid(&self) -> bool
        ensures { IsTrue result ↔ IsValidUpdate (update_value self.now) }
    {
        // A set of ids always has maximal spans, which this call says.
        let _spans = self.deletes.spans();
        are_blocks(self.blocks.as_slice())
    }
}

fn are_blocks(blocks: &[Block]) -> bool
    ensures { IsTrue result ↔ Each IsValidBlock (map block_value blocks.now) }
{
    for block in blocks {
        if !is_block(block) {
            return false;
        }
    }
    true
}

fn is_block(block: &Block) -> bool
    ensures { IsTrue result ↔ IsValidBlock (block_value block.now) }
{
    if block.client.0 >= LIMIT || block.clock >= LIMIT {
        return false;
    }
    are_structs_from(block.structs.as_slice(), block.client, block.clock)
}

fn are_structs_from(structs: &[Struct], client: Client, clock: u64) -> bool
    ensures { IsTrue result ↔ AreStructsFrom client clock (map struct_value structs.now) }
{
    let mut next = clock;
    for entry in structs {
        let count = entry.len();
        if !is_struct_at(entry, client, next) || !ends_at_clock(next, count) {
            return false;
        }
        next += count;
    }
    true
}

/// So many clocks from this one on end at a clock, below 2^53.
pub fn ends_at_clock(clock: u64, count: u64) -> bool
    ensures { result ≡ nat_lt (clock + count) (2 ^ 53) }
{
    clock < LIMIT && count < LIMIT - clock
}

fn is_struct_at(entry: &Struct, client: Client, clock: u64) -> bool
    ensures { IsTrue result ↔ IsStructAt client clock (struct_value entry.now) }
{
    match entry {
        Struct::Item(run) => is_run_at(run, client, clock),
        Struct::Skip(count) => *count > 0,
        Struct::Gone(count) => *count > 0,
    }
}

fn is_run_at(run: &Run, client: Client, clock: u64) -> bool
    ensures { IsTrue result ↔ IsRunAt client clock (run_value run.now) }
{
    run.id == Id { client, clock }
        && run.len() > 0
        && is_origin(run.left)
        && is_origin(run.right)
        && carries_list(run.left, run.right, &run.list)
        && run.content.is_valid()
}

fn is_origin(origin: Option<Id>) -> bool
    ensures { IsTrue result ↔ IfSome origin IsId }
{
    match origin {
        None => true,
        Some(id) => is_id(id),
    }
}

fn carries_list(left: Option<Id>, right: Option<Id>, list: &Option<List>) -> bool
    ensures { IsTrue result ↔ CarriesList left right list.now }
{
    match list {
        None => left.is_some() || right.is_some(),
        Some(list) => left.is_none() && right.is_none() && is_parent(&list.parent),
    }
}

fn is_parent(parent: &Parent) -> bool
    ensures { IsTrue result ↔ IsParent parent.now }
{
    match parent {
        Parent::Root(_) => true,
        Parent::Item(id) => is_id(*id),
    }
}

fn is_id(id: Id) -> bool
    ensures { IsTrue result ↔ IsId id }
{
    id.client.0 < LIMIT && id.clock < LIMIT
}

impl Content {
    /// Whether the content is valid: its text has no half without its partner, and every value in
    /// it is valid.
    pub fn is_valid(&self) -> bool
        ensures { IsTrue result ↔ IsValidContent (content_value self.now) }
    {
        match self {
            Content::Json(units) => are_units(units.as_slice()),
            Content::Str(units) => units.is_whole(),
            Content::Embed(value) => value.is_valid(),
            Content::Format { value, .. } => value.is_valid(),
            Content::Any(values) => are_values(values.as_slice()),
            Content::Binary(_) | Content::Nested(_) | Content::Deleted(_) => true,
        }
    }
}

fn are_units(units: &[JsonUnit]) -> bool
    ensures { IsTrue result ↔ Each IsValidUnit (map unit_value units.now) }
{
    for unit in units {
        if !is_unit(unit) {
            return false;
        }
    }
    true
}

fn is_unit(unit: &JsonUnit) -> bool
    ensures { IsTrue result ↔ IsValidUnit (unit_value unit.now) }
{
    match unit {
        JsonUnit::Undefined => true,
        JsonUnit::Value(value) => value.is_valid(),
    }
}

fn are_values(values: &[Any]) -> bool
    ensures { IsTrue result ↔ AreValidTrees (items_trees values.now) }
{
    for value in values {
        if !value.is_valid() {
            return false;
        }
    }
    true
}
