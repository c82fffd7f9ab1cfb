//! How what the last place tells is joined to what another tells, over a plain vector.

ghost use Rattle.std.specs.Prelude.{◌≡◌, ◌<◌, ◌≤◌, ◌+◌, None, true, false, map, length, IfOk, OnErr, vec_capacity};
ghost use Rattle.yd_ops.specs.View.{content_value, run_value};
ghost use Rattle.yd_ops.specs.Joining.{are_of_one_kind, joined_content};
ghost use Rattle.yd_store.specs.Contents.{told};
ghost use Rattle.yd_store.specs.Joining.{JoinsRun, JoinsSlot, JoinsTold};

use crate::cutting::push_told;
use yd_ops::{Content, NoMemory, Run};

/// Puts the units of a content behind those of another of its kind, where both are texts or deleted
/// units, in time of what it puts there.
fn join_contents(content: &mut Content, next: &Content) -> Result<bool, NoMemory>
    requires { are_of_one_kind (content_value content.old) (content_value next.now) ≡ true }
    ensures joined { IfOk result (λ joined. joined ≡ true → content_value content.new
        ≡ joined_content (content_value content.old) (content_value next.now)) }
    ensures kept { IfOk result (λ joined. joined ≡ false →
        content_value content.new ≡ content_value content.old) }
    ensures unchanged { OnErr result (content_value content.new ≡ content_value content.old) }
{
    match (content, next) {
        (Content::Str(units), Content::Str(more)) => {
            units.append(more)?;
            Ok(true)
        }
        (Content::Deleted(count), Content::Deleted(more)) => {
            let Some(both) = count.checked_add(*more) else {
                return Ok(false);
            };
            *count = both;
            Ok(true)
        }
        // Values would have to be moved, and those that find no memory are dropped.
        _ => Ok(false),
    }
}

/// Puts the units of a run behind those of another, where it goes on where that ends.
fn join_runs(run: &mut Run, next: &Run) -> Result<bool, NoMemory>
    ensures joined { IfOk result (λ joined. joined ≡ true →
        JoinsRun (run_value run.old) (run_value next.now) (run_value run.new)) }
    ensures kept { IfOk result (λ joined. joined ≡ false → run_value run.new ≡ run_value run.old) }
    ensures unchanged { OnErr result (run_value run.new ≡ run_value run.old) }
{
    if next.list.is_some() || !run.joins(next) {
        return Ok(false);
    }
    join_contents(&mut run.content, &next.content)
}

/// The same of what places tell.
fn join_slots(slot: &mut Option<Run>, next: &Option<Run>) -> Result<bool, NoMemory>
    ensures joined { IfOk result (λ joined. joined ≡ true →
        JoinsSlot (told slot.old) (told next.now) (told slot.new)) }
    ensures kept { IfOk result (λ joined. joined ≡ false → told slot.new ≡ told slot.old) }
    ensures unchanged { OnErr result (told slot.new ≡ told slot.old) }
{
    match (slot, next) {
        (Some(run), Some(next)) => join_runs(run, next),
        _ => Ok(false),
    }
}

/// The same of the last place and another one. Where both are one, the last place is there no more.
pub fn join_told(runs: &mut Vec<Option<Run>>, place: usize) -> Result<bool, NoMemory>
    requires { place + 1 < length runs.old.items }
    ensures joined { IfOk result (λ joined. joined ≡ true →
        JoinsTold (map told runs.old.items) (map told runs.new.items) place) }
    ensures kept { IfOk result (λ joined. joined ≡ false →
        map told runs.new.items ≡ map told runs.old.items) }
    ensures unchanged { OnErr result (map told runs.new.items ≡ map told runs.old.items) }
    ensures memory { vec_capacity runs.old ≤ vec_capacity runs.new }
    ensures len { length runs.new.items ≤ length runs.old.items }
{
    let Some(next) = runs.pop() else {
        return Ok(false);
    };
    match join_slots(&mut runs[place], &next) {
        Ok(true) => {
            drop(next);
            Ok(true)
        }
        Ok(false) => {
            push_told(runs, next);
            Ok(false)
        }
        Err(fault) => {
            push_told(runs, next);
            Err(fault)
        }
    }
}
