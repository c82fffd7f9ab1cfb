//! Messages, read.

ghost use Rattle.std.specs.Prelude.{◌≡◌, [], IfOk, IfErr, OnOk};
ghost use Rattle.yd_ids.specs.Vector.{IsVector};
ghost use Rattle.yd_ops.specs.Valid.{IsValidUpdate};
ghost use Rattle.yd_ops.specs.View.{update_value};
ghost use Rattle.yd_parts.specs.Fault.{Makes};
ghost use Rattle.yd_sync.specs.Message.{IsValidMessage, aware, change, message_value, step1, step2};
ghost use Rattle.yd_sync.specs.MessageGrammar.{ReadsMessage};
ghost use Rattle.yd_sync.specs.MessageReading.{MakesMessage, TrailsBehind, aware_reading, inner_error, message_of, message_reading, of_body, outer_error, outer_fault};
ghost use Rattle.yd_v1.specs.Reading.{v1_reading, vector_reading};

use crate::entry_reading::read_entries;
use crate::envelope::read_envelope;
use crate::fault::{MessageError, MessageFault};
use crate::kind::Kind;
use crate::message::Message;
use std::alloc::Global;
use yd_any::Blob;
use yd_ids::Vector;
use yd_ops::Update;
use yd_parts::{Cause, Column, Parts, ReadError};
use yd_v1::{read_v1, read_vector};

/// Reads a message: the one that the bytes stand for, or their first deviation (y-protocols,
/// readSyncMessage and applyAwarenessUpdate; y-websocket, the numbers in front; that bytes behind the
/// message are refused is own). The states of clients are carried unread.
pub fn read_message(alloc: Global, bytes: &[u8]) -> Result<Message, MessageError>
    ensures exact { ReadsMessage bytes.now result }
    ensures valid { IfOk result (λ m. IsValidMessage (message_value m)) }
{
    read_parts(alloc, bytes)
}

#[tactic(auto, unfolding(crate::specs::MessageReading::message_reading))]
fn read_parts(alloc: Global, bytes: &[u8]) -> Result<Message, MessageError>
    ensures made { MakesMessage result (message_reading bytes.now) }
    ensures valid { IfOk result (λ m. IsValidMessage (message_value m)) }
{
    let mut parts = Parts::new(Column::Whole, bytes);
    match read_envelope(&mut parts) {
        Err(error) => Err(outer_error(error)),
        Ok(envelope) => read_of_kind(alloc, envelope.kind, envelope.body, &parts),
    }
}

fn read_of_kind(
    alloc: Global,
    kind: Kind,
    body: &[u8],
    left: &Parts<'_>,
) -> Result<Message, MessageError>
    ensures made { MakesMessage result (message_of kind body.now left.now) }
    ensures valid { IfOk result (λ m. IsValidMessage (message_value m)) }
{
    match kind {
        Kind::Step1 => read_step1(alloc, body, left),
        Kind::Step2 => read_step2(alloc, body, left),
        Kind::Change => read_change(alloc, body, left),
        Kind::Aware => read_aware(alloc, body, left),
        Kind::Auth => Ok(Message::Auth(Blob::copy_of(alloc, left.rest())?)),
        Kind::Query => {
            nothing_follows(left)?;
            Ok(Message::Query)
        }
        Kind::Other(number) => Err(MessageError::Fault(MessageFault::BadMessage(number))),
    }
}

fn read_step1(alloc: Global, body: &[u8], left: &Parts<'_>) -> Result<Message, MessageError>
    ensures made { MakesMessage result (of_body step1 (vector_reading body.now) left.now) }
    ensures valid { IfOk result (λ m. IsValidMessage (message_value m)) }
{
    match vector_of(alloc, body) {
        Err(error) => Err(inner_error(error)),
        Ok(vector) => {
            nothing_follows(left)?;
            Ok(Message::Step1(vector))
        }
    }
}

fn read_step2(alloc: Global, body: &[u8], left: &Parts<'_>) -> Result<Message, MessageError>
    ensures made { MakesMessage result (of_body step2 (v1_reading body.now) left.now) }
    ensures valid { IfOk result (λ m. IsValidMessage (message_value m)) }
{
    match update_of(alloc, body) {
        Err(error) => Err(inner_error(error)),
        Ok(update) => {
            nothing_follows(left)?;
            Ok(Message::Step2(update))
        }
    }
}

fn read_change(alloc: Global, body: &[u8], left: &Parts<'_>) -> Result<Message, MessageError>
    ensures made { MakesMessage result (of_body change (v1_reading body.now) left.now) }
    ensures valid { IfOk result (λ m. IsValidMessage (message_value m)) }
{
    match update_of(alloc, body) {
        Err(error) => Err(inner_error(error)),
        Ok(update) => {
            nothing_follows(left)?;
            Ok(Message::Change(update))
        }
    }
}

fn read_aware(alloc: Global, body: &[u8], left: &Parts<'_>) -> Result<Message, MessageError>
    ensures made { MakesMessage result (of_body aware (aware_reading body.now) left.now) }
    ensures valid { IfOk result (λ m. IsValidMessage (message_value m)) }
{
    match read_entries(alloc, body) {
        Err(error) => Err(inner_error(error)),
        Ok(entries) => {
            nothing_follows(left)?;
            Ok(Message::Aware(entries))
        }
    }
}

/// The state vector that a body is.
fn vector_of(alloc: Global, body: &[u8]) -> Result<Vector, ReadError>
    ensures made { Makes (λ vector. vector) result (vector_reading body.now) }
    ensures valid { IfOk result IsVector }
{
    read_vector(alloc, body)
}

/// The update that a body is.
fn update_of(alloc: Global, body: &[u8]) -> Result<Update, ReadError>
    ensures made { Makes update_value result (v1_reading body.now) }
    ensures valid { IfOk result (λ update. IsValidUpdate (update_value update)) }
{
    read_v1(alloc, body)
}

/// Nothing is left to read, or it is told where something is.
fn nothing_follows(left: &Parts<'_>) -> Result<(), MessageError>
    ensures clear { OnOk result (left.now.bytes ≡ []) }
    ensures trails { IfErr result (λ e. TrailsBehind left.now e) }
{
    if left.left() == 0 {
        return Ok(());
    }
    let place = left.here().at as usize;
    Err(MessageError::Fault(MessageFault::Trailing(place)))
}

/// The error of the numbers and the byte string in front.
fn outer_error(error: ReadError) -> MessageError
    ensures { result ≡ outer_error error }
{
    match error {
        ReadError::NoMemory => MessageError::NoMemory,
        ReadError::Fault { cause, spot } => {
            MessageError::Fault(outer_fault(cause, spot.at as usize))
        }
    }
}

fn outer_fault(cause: Cause, place: usize) -> MessageFault
    ensures { result ≡ outer_fault cause place }
{
    match cause {
        Cause::ShortInput => MessageFault::ShortInput(place),
        _ => MessageFault::NumberTooLarge(place),
    }
}

/// The error of a body.
fn inner_error(error: ReadError) -> MessageError
    ensures { result ≡ inner_error error }
{
    match error {
        ReadError::NoMemory => MessageError::NoMemory,
        ReadError::Fault { cause, spot } => MessageError::Fault(MessageFault::Inner(cause, spot)),
    }
}
