//! What the structs of updates have, lent.

ghost use Rattle.std.specs.Prelude.{◌≡◌, ◌↔◌, ◌+◌, ◌++◌, map, IsTrue, IfOk, IfSome, IfNone, OnOk};
ghost use Rattle.std.specs.List.Sorted.{IsPermutation};
ghost use Rattle.yd_words.specs.Each.{Each};
ghost use Rattle.yd_ids.specs.Id.{IsClient, IsClock};
ghost use Rattle.yd_ops.specs.Agreement.{AreAlike, operations_of_all};
ghost use Rattle.yd_ops.specs.Valid.{IsStructAt, IsValidBlock, IsValidUpdate};
ghost use Rattle.yd_ops.specs.Value.{clocks_of};
ghost use Rattle.yd_ops.specs.View.{block_value, struct_value, update_value};
ghost use Rattle.yd_building.specs.Builder.{group_value};
ghost use Rattle.yd_merge.specs.Lending.{AreInTurn, AreNeverInTurn, GoesBefore, IsLent, lent_group};
ghost use Rattle.yd_merge.specs.Lending.{blocks_groups, struct_groups, structs_groups, updates_groups};

use crate::fault::NoMemory;
use std::alloc::Global;
use yd_building::Group;
use yd_ids::{Client, Id};
use yd_ops::{Block, Run, Struct, Update};

/// What one struct has, lent: a run, or gone units.
#[derive(Clone, Copy)]
pub struct Lent<'a> {
    /// The id of its first unit.
    pub id: Id,
    /// How many units it has.
    pub len: u64,
    /// The run. Gone units have none.
    pub run: Option<&'a Run>,
}

impl<'a> Lent<'a> {
    /// The same in memory of its own.
    pub fn copy(&self) -> Result<Group, NoMemory>
        requires { IsLent self.now }
        ensures { IfOk result (λ group. group_value group ≡ lent_group self.now) }
    {
        match self.run {
            None => Ok(Group::Gone(self.id, self.len)),
            Some(run) => {
                let run = run.copy()?;
                Ok(Group::Run(run))
            }
        }
    }

    /// It is written wholly before the next one.
    fn goes_before(&self, next: &Lent<'a>) -> bool
        requires first { IsLent self.now }
        requires next { IsLent next.now }
        ensures { IsTrue result ↔ GoesBefore (lent_group self.now) (lent_group next.now) }
    {
        if self.id.client.0 == next.id.client.0 {
            return self.id.clock + self.len <= next.id.clock;
        }
        self.id.client.0 > next.id.client.0
    }
}

/// Whether no two structs of these updates, the others among them, have a unit with one id. Where it
/// says yes, their operations are alike, and neither their order nor repeats change what is received
/// of them (`yd_ops::law`). Where it says no, nothing is promised. It takes the time of sorting the
/// structs, unless they are in the order of writing, and memory for a row of references.
pub fn are_apart(alloc: Global, updates: &[Update], others: &[Update]) -> Result<bool, NoMemory>
    requires updates { Each IsValidUpdate (map update_value updates.now) }
    requires others { Each IsValidUpdate (map update_value others.now) }
    ensures { IfOk result (λ apart. IsTrue apart → AreAlike (operations_of_all
        (map update_value updates.now ++ map update_value others.now))) }
{
    let mut lents = lent_by(alloc, updates)?;
    lend_updates(&mut lents, others)?;
    let apart = in_turn(lents).is_some();
    Ok(apart)
}

/// What the structs of updates have, in their order.
pub fn lent_by<'a>(alloc: Global, updates: &'a [Update]) -> Result<Vec<Lent<'a>>, NoMemory>
    requires { Each IsValidUpdate (map update_value updates.now) }
    ensures groups { IfOk result (λ lents. map lent_group lents.items
        ≡ updates_groups (map update_value updates.now)) }
    ensures lent { IfOk result (λ lents. Each IsLent lents.items) }
{
    let mut lents = Vec::new(alloc);
    lend_updates(&mut lents, updates)?;
    Ok(lents)
}

/// Appends what the structs of updates have.
fn lend_updates<'a>(lents: &mut Vec<Lent<'a>>, updates: &'a [Update]) -> Result<(), NoMemory>
    requires updates { Each IsValidUpdate (map update_value updates.now) }
    requires lent { Each IsLent lents.old.items }
    ensures groups { OnOk result (map lent_group lents.new.items
        ≡ map lent_group lents.old.items ++ updates_groups (map update_value updates.now)) }
    ensures lent { Each IsLent lents.new.items }
{
    for update in updates {
        lend_update(lents, update)?;
    }
    Ok(())
}

/// Appends what the structs of an update have.
pub fn lend_update<'a>(lents: &mut Vec<Lent<'a>>, update: &'a Update) -> Result<(), NoMemory>
    requires update { IsValidUpdate (update_value update.now) }
    requires lent { Each IsLent lents.old.items }
    ensures groups { OnOk result (map lent_group lents.new.items
        ≡ map lent_group lents.old.items ++ blocks_groups (update_value update.now).blocks) }
    ensures lent { Each IsLent lents.new.items }
{
    for block in update.blocks.as_slice() {
        lend_block(lents, block)?;
    }
    Ok(())
}

/// Appends what the structs of a block have.
fn lend_block<'a>(lents: &mut Vec<Lent<'a>>, block: &'a Block) -> Result<(), NoMemory>
    requires block { IsValidBlock (block_value block.now) }
    requires lent { Each IsLent lents.old.items }
    ensures groups { OnOk result (map lent_group lents.new.items
        ≡ map lent_group lents.old.items ++ structs_groups block.now.client block.now.clock
        (map struct_value block.now.structs)) }
    ensures lent { Each IsLent lents.new.items }
{
    let mut clock = block.clock;
    for next in block.structs.as_slice() {
        lend_struct(lents, block.client, clock, next)?;
        clock += next.len();
    }
    Ok(())
}

/// Appends what a struct at a clock of a client has. A skip has nothing.
fn lend_struct<'a>(
    lents: &mut Vec<Lent<'a>>,
    client: Client,
    clock: u64,
    next: &'a Struct,
) -> Result<(), NoMemory>
    requires client { IsClient client }
    requires valid { IsStructAt client clock (struct_value next.now) }
    requires end { IsClock (clock + clocks_of (struct_value next.now)) }
    requires lent { Each IsLent lents.old.items }
    ensures groups { OnOk result (map lent_group lents.new.items
        ≡ map lent_group lents.old.items ++ struct_groups client clock (struct_value next.now)) }
    ensures lent { Each IsLent lents.new.items }
{
    match next {
        Struct::Item(run) => {
            lents.push(Lent {
                id: run.id,
                len: run.len(),
                run: Some(run),
            })?;
            Ok(())
        }
        Struct::Skip(_) => Ok(()),
        Struct::Gone(count) => {
            let id = Id { client, clock };
            lents.push(Lent {
                id,
                len: *count,
                run: None,
            })?;
            Ok(())
        }
    }
}

/// In the order of writing, in which each is written wholly before the next. There is none where two
/// of them have a unit with one id. It takes no memory, and the time of sorting them, unless they are
/// in that order.
pub fn in_turn<'a>(mut lents: Vec<Lent<'a>>) -> Option<Vec<Lent<'a>>>
    requires { Each IsLent lents.items }
    ensures same { IfSome result (λ sorted. IsPermutation lents.entry.items sorted.items) }
    ensures in_turn { IfSome result (λ sorted. AreInTurn (map lent_group sorted.items)) }
    ensures none { IfNone result (AreNeverInTurn lents.entry.items) }
{
    if are_in_turn(&lents) {
        return Some(lents);
    }
    lents.sort_unstable_by_key(|lent| (u64::MAX - lent.id.client.0, lent.id.clock));
    if are_in_turn(&lents) {
        return Some(lents);
    }
    None
}

/// Each is written wholly before the next.
fn are_in_turn(lents: &[Lent<'_>]) -> bool
    requires { Each IsLent lents.now }
    ensures { IsTrue result ↔ AreInTurn (map lent_group lents.now) }
{
    let mut at = 0;
    while lents.len() - at > 1 {
        if !lents[at].goes_before(&lents[at + 1]) {
            return false;
        }
        at += 1;
    }
    true
}
