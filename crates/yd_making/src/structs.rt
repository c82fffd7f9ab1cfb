//! What is made, as structs of an update.

ghost use Rattle.std.specs.Prelude.{◌≡◌, ◌∷◌, ◌++◌, [], None, map, reverse, IfOk, OnOk};
ghost use Rattle.yd_ids.specs.Id.{IsClock};
ghost use Rattle.yd_ops.specs.Value.{item};
ghost use Rattle.yd_ops.specs.View.{content_value, run_value, struct_value, block_value};
ghost use Rattle.yd_editing.specs.Made.{list_where_alone};
ghost use Rattle.yd_editing.specs.Refused.{clock_refusal};
ghost use Rattle.yd_making.specs.Blocks.{block_from, made_with};
ghost use Rattle.yd_making.specs.Rights.{runs_with, right_first, rights_behind};
ghost use Rattle.yd_making.specs.Steps.{step_value, steps_value};

use crate::fault::NoMemory;
use crate::step::Step;
use std::alloc::Global;
use yd_ids::{Client, Id};
use yd_ops::{Block, BlockList, Content, List, Run, Struct, StructList};

/// The items that steps make from a clock on, with the right origin of each step. The contents are
/// moved, and none is copied.
pub(crate) fn structs_of(
    alloc: Global,
    client: Client,
    clock: u64,
    steps: Vec<Step>,
    rights: Vec<Option<Id>>,
) -> Result<StructList, NoMemory>
    requires clock { IsClock clock }
    requires fits { clock_refusal clock (steps_value steps.items) ≡ None }
    ensures { IfOk result (λ structs. map struct_value structs
        ≡ map item (runs_with client clock rights.items (steps_value steps.items))) }
{
    let mut structs = StructList::new(alloc);
    let mut steps = steps;
    let mut rights = rights;
    // The last is taken out first, so that both come in their order.
    steps.reverse();
    rights.reverse();
    let mut next = clock;
    while let Some(step) = steps.pop() {
        let right = taken_out(&mut rights);
        let len = step.len();
        let id = Id {
            client,
            clock: next,
        };
        put(&mut structs, id, step, right)?;
        next += len;
    }
    Ok(structs)
}

/// The right origin that comes next, and none where none is left.
fn taken_out(rights: &mut Vec<Option<Id>>) -> Option<Id>
    ensures first { result ≡ right_first (reverse rights.old.items) }
    ensures others { reverse rights.new.items ≡ rights_behind (reverse rights.old.items) }
{
    match rights.pop() {
        None => None,
        Some(right) => right,
    }
}

/// Appends the item of a step that makes something.
fn put(structs: &mut StructList, id: Id, step: Step, right: Option<Id>) -> Result<(), NoMemory>
    ensures { OnOk result (map struct_value structs.new
        ≡ map struct_value structs.old
        ++ map item (runs_with id.client id.clock (right ∷ []) (step_value step ∷ []))) }
{
    match step {
        Step::Make {
            list,
            after,
            content,
        } => {
            structs.push(Struct::Item(made(id, list, after, right, content)))?;
            Ok(())
        }
        Step::Remove(_spans) => Ok(()),
    }
}

/// A run between two neighbours. It carries its list where there is none.
fn made(id: Id, list: List, after: Option<Id>, right: Option<Id>, content: Content) -> Run
    ensures { run_value result ≡ made_with id list after right (content_value content) }
{
    Run {
        id,
        left: after,
        right,
        list: list_alone(list, after, right),
        content,
    }
}

/// The list, where both neighbours are absent.
fn list_alone(list: List, after: Option<Id>, right: Option<Id>) -> Option<List>
    ensures { result ≡ list_where_alone after right list }
{
    if after.is_none() && right.is_none() {
        return Some(list);
    }
    None
}

/// The structs as the one block of their client, and no block where there are none.
pub(crate) fn block_of(
    alloc: Global,
    client: Client,
    clock: u64,
    structs: StructList,
) -> Result<BlockList, NoMemory>
    ensures { IfOk result (λ blocks. map block_value blocks
        ≡ block_from client clock (map struct_value structs)) }
{
    let mut blocks = BlockList::new(alloc);
    if structs.as_slice().is_empty() {
        return Ok(blocks);
    }
    blocks.push(Block {
        client,
        clock,
        structs,
    })?;
    Ok(blocks)
}
