//! Replies, passed from one replica to another.

ghost use Rattle.std.specs.Prelude.{◌≡◌, IfOk, IfErr, OnOk};
ghost use Rattle.yd_ops.specs.Valid.{IsValidUpdate};
ghost use Rattle.yd_ops.specs.View.{update_value};
ghost use Rattle.yd_meaning.specs.Held.{held_clock, held_set};
ghost use Rattle.yd_grouping.specs.Merged.{reply_of};
ghost use Rattle.yd_generator.specs.Generated.{delete_set_of, passed};
ghost use Rattle.yd_generator.specs.Plain.{IsPlain};
ghost use Rattle.yd_doc.specs.Kept.{received_of};
ghost use Rattle.yd_generating.specs.declared.fault.GenerateFault.TheVariants.{NoMemory as NoRoom};

use crate::fault::GenerateFault;
use crate::writing::through;
use std::alloc::Global;
use yd_doc::Replica;
use yd_doc::law::own_document_is_replicas;
use yd_ops::Update;

/// The asker takes the answerer's reply.
pub(crate) fn pass(answerer: &Replica, asker: &mut Replica) -> Result<(), GenerateFault>
    requires { IsPlain (received_of answerer.now) }
    ensures passed { OnOk result (received_of asker.new
        ≡ passed (received_of answerer.now) (received_of asker.old)) }
    ensures memory { IfErr result (λ fault. fault ≡ NoRoom) }
    ensures client { asker.new.client ≡ asker.old.client }
{
    let update = reply_to(answerer, asker)?;
    match asker.apply(&update) {
        Ok(_) => Ok(()),
        Err(_) => Err(GenerateFault::NoMemory),
    }
}

/// The asker takes the answerer's reply, which goes through bytes.
pub(crate) fn pass_written(
    alloc: Global,
    step: u64,
    answerer: &Replica,
    asker: &mut Replica,
) -> Result<(), GenerateFault>
    requires { IsPlain (received_of answerer.now) }
    ensures passed { OnOk result (received_of asker.new
        ≡ passed (received_of answerer.now) (received_of asker.old)) }
    ensures memory { IfErr result (λ fault. fault ≡ NoRoom) }
    ensures client { asker.new.client ≡ asker.old.client }
{
    let update = written_reply(alloc, step, answerer, asker)?;
    match asker.apply(&update) {
        Ok(_) => Ok(()),
        Err(_) => Err(GenerateFault::NoMemory),
    }
}

/// The answerer's reply to the asker's state vector, behind its way through bytes.
fn written_reply(
    alloc: Global,
    step: u64,
    answerer: &Replica,
    asker: &Replica,
) -> Result<Update, GenerateFault>
    requires { IsPlain (received_of answerer.now) }
    ensures reply { IfOk result (λ update. update_value update
        ≡ reply_of (received_of answerer.now) (delete_set_of (received_of answerer.now))
        (held_clock (held_set (received_of asker.now).operations))) }
    ensures valid { IfOk result (λ update. IsValidUpdate (update_value update)) }
    ensures memory { IfErr result (λ fault. fault ≡ NoRoom) }
{
    let update = reply_to(answerer, asker)?;
    match through(alloc, step, &update) {
        Ok(again) => Ok(again),
        Err(_) => Err(GenerateFault::NoMemory),
    }
}

/// The answerer's reply to the asker's state vector.
fn reply_to(answerer: &Replica, asker: &Replica) -> Result<Update, GenerateFault>
    requires { IsPlain (received_of answerer.now) }
    ensures reply { IfOk result (λ update. update_value update
        ≡ reply_of (received_of answerer.now) (delete_set_of (received_of answerer.now))
        (held_clock (held_set (received_of asker.now).operations))) }
    ensures valid { IfOk result (λ update. IsValidUpdate (update_value update)) }
    ensures memory { IfErr result (λ fault. fault ≡ NoRoom) }
{
    // The delete set is looked at, since it is the one of what was received.
    own_document_is_replicas(answerer);
    let deletes = answerer.deletes();
    let _spans = deletes.spans();
    let update = answerer.reply(asker.vector())?;
    Ok(update)
}
