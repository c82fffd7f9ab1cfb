//! So many steps, and what is told of them.

ghost use Rattle.std.specs.Prelude.{◌≡◌, ◌+◌, ◌<◌, ◌^◌, IfOk, IfErr, OnOk};
ghost use Rattle.yd_generator.specs.Draws.{draws_from};
ghost use Rattle.yd_generator.specs.Generated.{first_generation, generation, rounded, text_list};
ghost use Rattle.yd_generator.specs.Law.{AreAccepted};
ghost use Rattle.yd_generator.specs.Plain.{AreShared};
ghost use Rattle.yd_generating.specs.Line.{IsFoundOf, IsLineOf, IsStop};
ghost use Rattle.yd_generating.specs.Replicas.{received_by, AreClients, IsNew};
ghost use Rattle.yd_generating.specs.declared.fault.GenerateFault.TheVariants.{NoMemory as NoRoom};

use crate::comparing::are_equal;
use crate::counting::{deleted, held};
use crate::fault::GenerateFault;
use crate::turning::{pass_rounds, take_step};
use std::alloc::Global;
use yd_any::Text;
use yd_doc::Replica;
use yd_doc::law::own_document_is_replicas;
use yd_generator::{Draws, draws_from};
use yd_ids::Client;
use yd_ops::{List, Parent};

/// What is told of so many steps: the numbers of the first replica, and whether the three are equal.
#[derive(Clone, Copy)]
pub struct Generated {
    /// Units that are held.
    pub held: u64,
    /// Held units that are deleted.
    pub deleted: u128,
    /// Units of the text.
    pub length: u64,
    /// The three replicas have one text, one state vector and one delete set.
    pub equal: bool,
}

/// Carries out so many steps and two rounds of replies (own). At each step the replica whose turn it
/// is inserts a letter or deletes a unit of the text of the root `g`, by three draws; at each tenth
/// one the next replica takes its reply as bytes, in V2 and in V1 by turns. The three are equal at the
/// end. An edit is refused only where a client has no clock left, which fewer than 2^53 steps do not
/// bring about. It takes the time of the edits and replies, and reads the texts once, at the end.
pub fn generate(alloc: Global, steps: u64) -> Result<Generated, GenerateFault>
    ensures found { IfOk result (IsFoundOf steps) }
    ensures stops { IfErr result (IsStop steps) }
{
    match text_list(alloc) {
        Ok(list) => with_list(alloc, &list, steps),
        Err(_) => Err(GenerateFault::NoMemory),
    }
}

/// The text of the root `g`.
fn text_list(alloc: Global) -> Result<List, GenerateFault>
    ensures list { IfOk result (λ list. list ≡ text_list) }
    ensures memory { IfErr result (λ fault. fault ≡ NoRoom) }
{
    let name = Text::copy_of(alloc, "g")?;
    Ok(List {
        parent: Parent::Root(name),
        key: None,
    })
}

// Each function below owns one replica and lends it to the next. A function that owned the three would
// drop them at each of its ways out.

/// The same, with the text's list.
fn with_list(alloc: Global, list: &List, steps: u64) -> Result<Generated, GenerateFault>
    requires { list.now ≡ text_list }
    ensures found { IfOk result (IsFoundOf steps) }
    ensures stops { IfErr result (IsStop steps) }
{
    match Replica::new(alloc, Client(1)) {
        Ok(mut first) => with_first(alloc, list, steps, &mut first),
        Err(_) => Err(GenerateFault::NoMemory),
    }
}

/// The same, with the first replica.
fn with_first(
    alloc: Global,
    list: &List,
    steps: u64,
    first: &mut Replica,
) -> Result<Generated, GenerateFault>
    requires list { list.now ≡ text_list }
    requires first { IsNew 1 first.old }
    ensures found { IfOk result (IsFoundOf steps) }
    ensures stops { IfErr result (IsStop steps) }
{
    match Replica::new(alloc, Client(2)) {
        Ok(mut second) => with_second(alloc, list, steps, first, &mut second),
        Err(_) => Err(GenerateFault::NoMemory),
    }
}

/// The same, with the first and the second one.
fn with_second(
    alloc: Global,
    list: &List,
    steps: u64,
    first: &mut Replica,
    second: &mut Replica,
) -> Result<Generated, GenerateFault>
    requires list { list.now ≡ text_list }
    requires first { IsNew 1 first.old }
    requires second { IsNew 2 second.old }
    ensures found { IfOk result (IsFoundOf steps) }
    ensures stops { IfErr result (IsStop steps) }
{
    match Replica::new(alloc, Client(3)) {
        Ok(mut third) => with_three(alloc, list, steps, first, second, &mut third),
        Err(_) => Err(GenerateFault::NoMemory),
    }
}

/// The same, with three replicas that have received nothing.
fn with_three(
    alloc: Global,
    list: &List,
    steps: u64,
    first: &mut Replica,
    second: &mut Replica,
    third: &mut Replica,
) -> Result<Generated, GenerateFault>
    requires list { list.now ≡ text_list }
    requires first { IsNew 1 first.old }
    requires second { IsNew 2 second.old }
    requires third { IsNew 3 third.old }
    ensures found { IfOk result (IsFoundOf steps) }
    ensures stops { IfErr result (IsStop steps) }
{
    take_steps(alloc, list, steps, first, second, third)?;
    match end(alloc, list, first, second, third) {
        Ok(found) => Ok(found),
        Err(_) => Err(GenerateFault::NoMemory),
    }
}

/// The steps, one after another.
fn take_steps(
    alloc: Global,
    list: &List,
    steps: u64,
    first: &mut Replica,
    second: &mut Replica,
    third: &mut Replica,
) -> Result<(), GenerateFault>
    requires list { list.now ≡ text_list }
    requires clients { AreClients first.old second.old third.old }
    requires start { received_by first.old second.old third.old ≡ first_generation.three }
    ensures taken { OnOk result
        (received_by first.new second.new third.new ≡ (generation steps).three) }
    ensures accepted { OnOk result (AreAccepted steps) }
    ensures stops { IfErr result (IsStop steps) }
{
    let mut state = 1;
    let mut step = 0;
    while step < steps {
        let draws = draws_from(state);
        step_on(alloc, list, steps, step, draws, first, second, third)?;
        state = draws.state;
        step += 1;
    }
    Ok(())
}

/// One more step, behind so many of all steps.
fn step_on(
    alloc: Global,
    list: &List,
    steps: u64,
    step: u64,
    draws: Draws,
    first: &mut Replica,
    second: &mut Replica,
    third: &mut Replica,
) -> Result<(), GenerateFault>
    requires list { list.now ≡ text_list }
    requires small { draws.y < 2 ^ 15 }
    requires clients { AreClients first.old second.old third.old }
    requires behind { received_by first.old second.old third.old ≡ (generation step).three }
    requires accepted { AreAccepted step }
    requires more { step < steps }
    requires draws { draws ≡ draws_from (generation step).state }
    ensures taken { OnOk result
        (received_by first.new second.new third.new ≡ (generation (step + 1)).three) }
    ensures accepted { OnOk result (AreAccepted (step + 1)) }
    ensures stops { IfErr result (IsStop steps) }
    ensures clients { AreClients first.new second.new third.new }
{
    match take_step(alloc, list, step + 1, draws, first, second, third) {
        Ok(_) => Ok(()),
        Err(fault) => Err(fault),
    }
}

/// Two rounds of replies, and what is told behind them.
fn end(
    alloc: Global,
    list: &List,
    first: &mut Replica,
    second: &mut Replica,
    third: &mut Replica,
) -> Result<Generated, GenerateFault>
    requires list { list.now ≡ text_list }
    requires shared { AreShared (received_by first.old second.old third.old) }
    ensures line { IfOk result (λ found. IsLineOf found
        (rounded (rounded (received_by first.old second.old third.old)))) }
    ensures memory { IfErr result (λ fault. fault ≡ NoRoom) }
{
    pass_rounds(first, second, third)?;
    let found = line_of(alloc, list, first, second, third)?;
    Ok(found)
}

/// The numbers of the first replica, and whether the three are equal.
fn line_of(
    alloc: Global,
    list: &List,
    first: &Replica,
    second: &Replica,
    third: &Replica,
) -> Result<Generated, GenerateFault>
    requires list { list.now ≡ text_list }
    requires shared { AreShared (received_by first.now second.now third.now) }
    ensures line { IfOk result (λ found. IsLineOf found
        (received_by first.now second.now third.now)) }
    ensures memory { IfErr result (λ fault. fault ≡ NoRoom) }
{
    own_document_is_replicas(first);
    let equal = are_equal(alloc, list, first, second, third)?;
    Ok(Generated {
        held: held(first),
        deleted: deleted(first),
        length: first.length(list),
        equal,
    })
}
