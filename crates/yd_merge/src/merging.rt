//! Merging updates, without a document.

ghost use Rattle.std.specs.Prelude.{◌≡◌, map, IfOk};
ghost use Rattle.yd_words.specs.Each.{Each};
ghost use Rattle.yd_ops.specs.Valid.{IsValidUpdate};
ghost use Rattle.yd_ops.specs.View.{update_value};
ghost use Rattle.yd_ops.specs.Received.{received_set};
ghost use Rattle.yd_grouping.specs.Merged.{merge_of};
ghost use Rattle.yd_received.specs.Received.{taken_of};

use crate::fault::NoMemory;
use crate::lending::{in_turn, lent_by};
use crate::naming::named_by;
use crate::writing::{write_lent, written};
use std::alloc::Global;
use yd_ids::IdSet;
use yd_ops::Update;
use yd_received::Received;

/// One update that says what all of them say. Of each id one operation is there: under agreement
/// the one that says least, and else what was received of them in this order. It is grouped, so
/// neither their order nor repeats change it under agreement (`yd_grouping::law`). Where no two
/// structs have a unit with one id, it takes the time of sorting the structs and of what is written,
/// and beside that memory for a row of references alone. Else the updates are taken in one by one.
pub fn merge(alloc: Global, updates: &[Update]) -> Result<Update, NoMemory>
    requires { Each IsValidUpdate (map update_value updates.now) }
    ensures merged { IfOk result (λ merged. update_value merged
        ≡ merge_of (map update_value updates.now)) }
    ensures valid { IfOk result (λ merged. IsValidUpdate (update_value merged)) }
{
    let deletes = named_by(alloc, updates)?;
    let merged = merge_with(alloc, updates, deletes)?;
    Ok(merged)
}

/// The same, where the ids that the updates delete by name are known.
fn merge_with(alloc: Global, updates: &[Update], deletes: IdSet) -> Result<Update, NoMemory>
    requires valid { Each IsValidUpdate (map update_value updates.now) }
    requires deletes { deletes ≡ (received_set (map update_value updates.now)).deletes }
    ensures { IfOk result (λ merged. update_value merged
        ≡ merge_of (map update_value updates.now)) }
{
    let lents = lent_by(alloc, updates)?;
    match in_turn(lents) {
        Some(lents) => {
            let merged = write_lent(alloc, &lents, deletes)?;
            Ok(merged)
        }
        None => merge_taken(alloc, updates, deletes),
    }
}

/// The same, by taking in one update after another.
fn merge_taken(alloc: Global, updates: &[Update], deletes: IdSet) -> Result<Update, NoMemory>
    requires valid { Each IsValidUpdate (map update_value updates.now) }
    requires deletes { deletes ≡ (received_set (map update_value updates.now)).deletes }
    ensures { IfOk result (λ merged. update_value merged
        ≡ merge_of (map update_value updates.now)) }
{
    let received = received_of(alloc, updates)?;
    let runs = received.runs();
    let entries = received.entries();
    let merged = written(alloc, runs, entries, deletes)?;
    Ok(merged)
}

/// What is received of updates.
#[tactic(auto, using(crate::proofs::MergingLemmas::set_operations))]
pub fn received_of(alloc: Global, updates: &[Update]) -> Result<Received, NoMemory>
    requires { Each IsValidUpdate (map update_value updates.now) }
    ensures { IfOk result (λ received. taken_of received
        ≡ (received_set (map update_value updates.now)).operations) }
{
    let mut received = Received::new(alloc);
    for update in updates {
        let copy = update.copy()?;
        received.take(copy)?;
    }
    Ok(received)
}
