//! The state that received many updates.

ghost use Rattle.std.specs.Prelude.{◌≡◌, ◌∷◌, [], length, map, IsTrue, IfOk};
ghost use Rattle.yd_words.specs.Each.{Each};
ghost use Rattle.yd_ops.specs.Valid.{IsValidUpdate};
ghost use Rattle.yd_ops.specs.View.{update_value};
ghost use Rattle.yd_ops.specs.Received.{received_set};
ghost use Rattle.yd_state.specs.State.{received_in, IsSound};

use crate::fault::NoMemory;
use crate::state::State;
use std::alloc::Global;
use yd_merge::{join_runs, merge};
use yd_ops::{Block, Struct, Update};

/// More blocks than these may have runs that go on with those of others, which a merge joins.
const FEW_BLOCKS: usize = 64;

impl State {
    /// The state that received these updates, one after another. They are merged first, so that what is
    /// held and what is deleted is found once, and each unit is placed once. One alone with few blocks in
    /// order is taken as it is, or with its runs joined where they stand if most of them go on with one
    /// another. It takes the time of `merge` and of one update that says all of it. The updates are dropped
    /// once they are merged. Memory for the runs of the one update is taken at once, as many as it has.
    pub fn of_updates(alloc: Global, updates: Vec<Update>) -> Result<State, NoMemory>
        requires { Each IsValidUpdate (map update_value updates.items) }
        ensures received { IfOk result (λ state.
            received_in state ≡ received_set (map update_value updates.items)) }
        ensures sound { IfOk result IsSound }
    {
        let mut state = State::new(alloc);
        let update = one_of(alloc, updates)?;
        state.reserve(count_structs(update.blocks.as_slice()))?;
        let _brings = state.take(update)?;
        Ok(state)
    }

    /// Takes memory for so many runs ahead, or finds none. It is for what comes next: nothing changes
    /// that is told.
    fn reserve(&mut self, more: usize) -> Result<(), NoMemory>
        ensures { self.new ≡ self.old }
    {
        self.held.reserve(more)?;
        // Runs are cut where others go between their units, so the lists get a quarter more.
        let reserved = self.kept.reserve_places(more.saturating_add(more / 4));
        // That the store is sound says that its lists tell units still.
        let _ = self.kept.store();
        reserved?;
        Ok(())
    }
}

/// How many structs the blocks have, as far as a number goes. This chooses how much memory is taken
/// ahead alone.
fn count_structs(blocks: &[Block]) -> usize {
    let mut count: usize = 0;
    for block in blocks {
        count = count.saturating_add(block.structs.as_slice().len());
    }
    count
}

/// One update that says what the updates say: their merge, or the one that is alone, where its blocks are
/// few and in order. Its runs are joined if most of them go on with one another.
fn one_of(alloc: Global, updates: Vec<Update>) -> Result<Update, NoMemory>
    requires { Each IsValidUpdate (map update_value updates.items) }
    ensures same { IfOk result (λ update.
        received_set (update_value update ∷ []) ≡ received_set (map update_value updates.items)) }
    ensures valid { IfOk result (λ update. IsValidUpdate (update_value update)) }
{
    if !is_alone(&updates) {
        let merged = merge(alloc, &updates)?;
        return Ok(merged);
    }
    let mut updates = updates;
    let Some(update) = updates.pop() else {
        unreachable!();
    };
    if !joins_often(update.blocks.as_slice()) {
        return Ok(update);
    }
    let joined = join_runs(alloc, update)?;
    Ok(joined)
}

/// There is one update alone, of which the blocks stand well.
fn is_alone(updates: &[Update]) -> bool
    ensures { IsTrue result → length updates.now ≡ 1 }
{
    match updates {
        [update] => are_in_turn(update.blocks.as_slice()),
        _ => false,
    }
}

/// The blocks are few, and greater clients stand first, as they are kept. This chooses the faster way
/// alone.
fn are_in_turn(blocks: &[Block]) -> bool {
    if blocks.len() > FEW_BLOCKS {
        return false;
    }
    for at in 1..blocks.len() {
        if blocks[at - 1].client.0 < blocks[at].client.0 {
            return false;
        }
    }
    true
}

/// More than half of the structs go on where the one before ends, as where each keystroke has a struct of
/// its own. In what an editor wrote few do, and these part again in the store. This chooses the faster way
/// alone.
fn joins_often(blocks: &[Block]) -> bool {
    let mut joined: usize = 0;
    for block in blocks {
        joined = joined.saturating_add(count_joined(block.structs.as_slice()));
    }
    joined > count_structs(blocks) / 2
}

/// How many of the structs go on where the one before ends.
fn count_joined(structs: &[Struct]) -> usize {
    let mut joined: usize = 0;
    for at in 1..structs.len() {
        if goes_on(&structs[at - 1], &structs[at]) {
            joined = joined.saturating_add(1);
        }
    }
    joined
}

fn goes_on(before: &Struct, next: &Struct) -> bool {
    match (before, next) {
        (Struct::Item(run), Struct::Item(next)) => run.joins(next),
        _ => false,
    }
}
