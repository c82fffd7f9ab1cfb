//! The runs that updates spell, in the order of their first ids.

ghost use Rattle.std.specs.Prelude.{◌≡◌, [], ◌∷◌, ◌++◌, map, true, false, IfOk, OnOk};
ghost use Rattle.yd_ops.specs.View.{block_value, content_value, run_value, struct_value};
ghost use Rattle.yd_ops.specs.View.{update_value};
ghost use Rattle.yd_agreement.specs.Runs.{AreAscending, HaveSameRuns, full_runs, is_full};
ghost use Rattle.yd_agreement.specs.Runs.{lent_runs, runs_of_blocks, runs_of_structs};
ghost use Rattle.yd_agreement.specs.Runs.{runs_of_updates};

use crate::fault::NoMemory;
use std::alloc::Global;
use yd_ops::{Block, Content, Run, Struct, Update};

/// The runs that updates spell, in the order of their first ids. It takes the time of sorting them.
pub fn runs_in_order<'a>(alloc: Global, updates: &'a [Update]) -> Result<Vec<&'a Run>, NoMemory>
    ensures ascending { IfOk result (λ runs. AreAscending (lent_runs runs.items)) }
    ensures same { IfOk result (λ runs. HaveSameRuns (lent_runs runs.items)
        (runs_of_updates (map update_value updates.now))) }
{
    let mut runs = spelled(alloc, updates)?;
    runs.sort_unstable_by_key(|run| run.id);
    Ok(runs)
}

/// The runs that updates spell, one update after another.
fn spelled<'a>(alloc: Global, updates: &'a [Update]) -> Result<Vec<&'a Run>, NoMemory>
    ensures { IfOk result (λ runs. lent_runs runs.items
        ≡ runs_of_updates (map update_value updates.now)) }
{
    let mut runs = Vec::new(alloc);
    for update in updates {
        push_update(&mut runs, update)?;
    }
    Ok(runs)
}

/// Appends the runs that an update spells.
fn push_update<'a>(runs: &mut Vec<&'a Run>, update: &'a Update) -> Result<(), NoMemory>
    ensures { OnOk result (lent_runs runs.new.items
        ≡ lent_runs runs.old.items ++ runs_of_blocks (map block_value update.now.blocks)) }
{
    for block in update.blocks.as_slice() {
        push_block(runs, block)?;
    }
    Ok(())
}

/// Appends the runs of a block.
fn push_block<'a>(runs: &mut Vec<&'a Run>, block: &'a Block) -> Result<(), NoMemory>
    ensures { OnOk result (lent_runs runs.new.items
        ≡ lent_runs runs.old.items ++ runs_of_structs (map struct_value block.now.structs)) }
{
    for next in block.structs.as_slice() {
        push_struct(runs, next)?;
    }
    Ok(())
}

/// Appends the run of a struct, if it is one.
fn push_struct<'a>(runs: &mut Vec<&'a Run>, next: &'a Struct) -> Result<(), NoMemory>
    ensures { OnOk result (lent_runs runs.new.items
        ≡ lent_runs runs.old.items ++ runs_of_structs (struct_value next.now ∷ [])) }
{
    match next {
        Struct::Item(run) => {
            runs.push(run)?;
            Ok(())
        }
        Struct::Skip(_) => Ok(()),
        Struct::Gone(_) => Ok(()),
    }
}

/// Those of runs that are told in full.
pub fn full_of<'a>(alloc: Global, runs: &[&'a Run]) -> Result<Vec<&'a Run>, NoMemory>
    ensures { IfOk result (λ full. lent_runs full.items ≡ full_runs (lent_runs runs.now)) }
{
    let mut full: Vec<&'a Run> = Vec::new(alloc);
    for run in runs {
        if is_full(&run.content) {
            full.push(*run)?;
        }
    }
    Ok(full)
}

/// A content is told in full.
fn is_full(content: &Content) -> bool
    ensures { result ≡ is_full (content_value content.now) }
{
    match content {
        Content::Deleted(_) => false,
        _ => true,
    }
}
