//! Turns of three replicas, and rounds of replies.

ghost use Rattle.std.specs.Prelude.{◌≡◌, ◌<◌, ◌%◌, ◌^◌, IfErr, OnOk};
ghost use Rattle.yd_ids.specs.Id.{IsClient};
ghost use Rattle.yd_meaning.specs.Held.{held_clock, held_set};
ghost use Rattle.yd_generator.specs.Generated.{edited, passed_at, rounded, text_list, turned};
ghost use Rattle.yd_generator.specs.Law.{IsAccepted, IsTurnAccepted};
ghost use Rattle.yd_generator.specs.Plain.{AreShared, IsPlain, own_clock};
ghost use Rattle.yd_doc.specs.Kept.{received_of};
ghost use Rattle.yd_generating.specs.Replicas.{received_by, AreClients};
ghost use Rattle.yd_generating.specs.Stopped.{IsFull};
ghost use Rattle.yd_generating.specs.declared.fault.GenerateFault.TheVariants.{NoMemory as NoRoom};

use crate::editing::edit;
use crate::fault::GenerateFault;
use crate::passing::{pass, pass_written};
use std::alloc::Global;
use yd_doc::Replica;
use yd_generator::Draws;
use yd_ops::List;

/// One step: the replica whose turn it is edits, and each tenth time the next one takes its reply.
pub(crate) fn take_step(
    alloc: Global,
    list: &List,
    step: u64,
    draws: Draws,
    first: &mut Replica,
    second: &mut Replica,
    third: &mut Replica,
) -> Result<(), GenerateFault>
    requires list { list.now ≡ text_list }
    requires small { draws.y < 2 ^ 15 }
    requires clients { AreClients first.old second.old third.old }
    requires shared { AreShared (received_by first.old second.old third.old) }
    ensures turned { OnOk result (received_by first.new second.new third.new
        ≡ turned (step % 3) step draws (received_by first.old second.old third.old)) }
    ensures accepted { OnOk result (IsTurnAccepted (step % 3) draws
        (received_by first.old second.old third.old)) }
    ensures full { IfErr result (IsFull
        (own_clock (step % 3) (received_by first.old second.old third.old))) }
    ensures clients { AreClients first.new second.new third.new }
{
    if step % 3 == 0 {
        take_first(alloc, list, step, draws, first, second, third)?;
        return Ok(());
    }
    if step % 3 == 1 {
        take_second(alloc, list, step, draws, first, second, third)?;
        return Ok(());
    }
    take_third(alloc, list, step, draws, first, second, third)?;
    Ok(())
}

/// A step at which it is the turn of the first replica.
fn take_first(
    alloc: Global,
    list: &List,
    step: u64,
    draws: Draws,
    first: &mut Replica,
    second: &mut Replica,
    third: &mut Replica,
) -> Result<(), GenerateFault>
    requires list { list.now ≡ text_list }
    requires small { draws.y < 2 ^ 15 }
    requires clients { AreClients first.old second.old third.old }
    requires shared { AreShared (received_by first.old second.old third.old) }
    requires number { step % 3 ≡ 0 }
    ensures turned { OnOk result (received_by first.new second.new third.new
        ≡ turned (step % 3) step draws (received_by first.old second.old third.old)) }
    ensures accepted { OnOk result (IsTurnAccepted (step % 3) draws
        (received_by first.old second.old third.old)) }
    ensures full { IfErr result (IsFull
        (own_clock (step % 3) (received_by first.old second.old third.old))) }
    ensures clients { AreClients first.new second.new third.new }
{
    match turn(alloc, list, step, draws, first, second) {
        Ok(_) => Ok(()),
        Err(fault) => Err(fault),
    }
}

/// A step at which it is the turn of the second replica.
fn take_second(
    alloc: Global,
    list: &List,
    step: u64,
    draws: Draws,
    first: &mut Replica,
    second: &mut Replica,
    third: &mut Replica,
) -> Result<(), GenerateFault>
    requires list { list.now ≡ text_list }
    requires small { draws.y < 2 ^ 15 }
    requires clients { AreClients first.old second.old third.old }
    requires shared { AreShared (received_by first.old second.old third.old) }
    requires number { step % 3 ≡ 1 }
    ensures turned { OnOk result (received_by first.new second.new third.new
        ≡ turned (step % 3) step draws (received_by first.old second.old third.old)) }
    ensures accepted { OnOk result (IsTurnAccepted (step % 3) draws
        (received_by first.old second.old third.old)) }
    ensures full { IfErr result (IsFull
        (own_clock (step % 3) (received_by first.old second.old third.old))) }
    ensures clients { AreClients first.new second.new third.new }
{
    match turn(alloc, list, step, draws, second, third) {
        Ok(_) => Ok(()),
        Err(fault) => Err(fault),
    }
}

/// A step at which it is the turn of the third replica.
fn take_third(
    alloc: Global,
    list: &List,
    step: u64,
    draws: Draws,
    first: &mut Replica,
    second: &mut Replica,
    third: &mut Replica,
) -> Result<(), GenerateFault>
    requires list { list.now ≡ text_list }
    requires small { draws.y < 2 ^ 15 }
    requires clients { AreClients first.old second.old third.old }
    requires shared { AreShared (received_by first.old second.old third.old) }
    requires number { step % 3 ≡ 2 }
    ensures turned { OnOk result (received_by first.new second.new third.new
        ≡ turned (step % 3) step draws (received_by first.old second.old third.old)) }
    ensures accepted { OnOk result (IsTurnAccepted (step % 3) draws
        (received_by first.old second.old third.old)) }
    ensures full { IfErr result (IsFull
        (own_clock (step % 3) (received_by first.old second.old third.old))) }
    ensures clients { AreClients first.new second.new third.new }
{
    match turn(alloc, list, step, draws, third, first) {
        Ok(_) => Ok(()),
        Err(fault) => Err(fault),
    }
}

/// A turn of a replica, and of the one behind it.
fn turn(
    alloc: Global,
    list: &List,
    step: u64,
    draws: Draws,
    own: &mut Replica,
    next: &mut Replica,
) -> Result<(), GenerateFault>
    requires list { list.now ≡ text_list }
    requires small { draws.y < 2 ^ 15 }
    requires client { IsClient own.old.client }
    requires plain { IsPlain (received_of own.old) }
    ensures edited { OnOk result (received_of own.new
        ≡ edited own.old.client draws (received_of own.old)) }
    ensures passed { OnOk result (received_of next.new
        ≡ passed_at step (edited own.old.client draws (received_of own.old)) (received_of next.old)) }
    ensures accepted { OnOk result (IsAccepted own.old.client draws (received_of own.old)) }
    ensures full { IfErr result (IsFull
        (held_clock (held_set (received_of own.old).operations) own.old.client.0)) }
    ensures own_client { own.new.client ≡ own.old.client }
    ensures next_client { next.new.client ≡ next.old.client }
{
    edit(alloc, own, list, draws)?;
    match hand_on(alloc, step, own, next) {
        Ok(_) => Ok(()),
        Err(_) => Err(GenerateFault::NoMemory),
    }
}

/// Each tenth step the next replica takes the reply.
fn hand_on(alloc: Global, step: u64, own: &Replica, next: &mut Replica) -> Result<(), GenerateFault>
    requires { IsPlain (received_of own.now) }
    ensures passed { OnOk result (received_of next.new
        ≡ passed_at step (received_of own.now) (received_of next.old)) }
    ensures memory { IfErr result (λ fault. fault ≡ NoRoom) }
    ensures client { next.new.client ≡ next.old.client }
{
    if step % 10 != 0 {
        return Ok(());
    }
    pass_written(alloc, step, own, next)?;
    Ok(())
}

/// Two rounds of replies.
pub(crate) fn pass_rounds(
    first: &mut Replica,
    second: &mut Replica,
    third: &mut Replica,
) -> Result<(), GenerateFault>
    requires { AreShared (received_by first.old second.old third.old) }
    ensures rounded { OnOk result (received_by first.new second.new third.new
        ≡ rounded (rounded (received_by first.old second.old third.old))) }
    ensures shared { OnOk result (AreShared (received_by first.new second.new third.new)) }
    ensures memory { IfErr result (λ fault. fault ≡ NoRoom) }
{
    pass_round(first, second, third)?;
    pass_round(first, second, third)?;
    Ok(())
}

/// A round of replies: the second takes that of the first, the third that of the second, and the first
/// that of the third.
fn pass_round(
    first: &mut Replica,
    second: &mut Replica,
    third: &mut Replica,
) -> Result<(), GenerateFault>
    requires { AreShared (received_by first.old second.old third.old) }
    ensures rounded { OnOk result (received_by first.new second.new third.new
        ≡ rounded (received_by first.old second.old third.old)) }
    ensures shared { OnOk result (AreShared (received_by first.new second.new third.new)) }
    ensures memory { IfErr result (λ fault. fault ≡ NoRoom) }
{
    pass(first, second)?;
    pass(second, third)?;
    pass(third, first)?;
    Ok(())
}
