//! Messages, written.

ghost use Rattle.std.specs.Prelude.{◌≡◌, ◌<◌, ◌^◌, ◌∷◌, ◌++◌, length, IfOk, OnOk};
ghost use Rattle.yd_words.specs.Each.{Each};
ghost use Rattle.yd_num.specs.Writing.{shortest_blob};
ghost use Rattle.yd_ops.specs.Valid.{IsValidUpdate};
ghost use Rattle.yd_ops.specs.View.{update_value};
ghost use Rattle.yd_sync.specs.Entry.{IsEntry};
ghost use Rattle.yd_sync.specs.Message.{IsValidMessage, aware, change, message_value, step1, step2};
ghost use Rattle.yd_sync.specs.MessageGrammar.{StandsForMessage};
ghost use Rattle.yd_sync.specs.MessageWriting.{HasBody, bytes_of_message};

use crate::entry::AwareList;
use crate::entry_writing::write_entries;
use crate::kind::{
    OUTER_AUTH, OUTER_AWARE, OUTER_QUERY, OUTER_SYNC, SYNC_CHANGE, SYNC_STEP1, SYNC_STEP2,
};
use crate::message::Message;
use std::alloc::Global;
use yd_ids::Vector;
use yd_num::Bytes;
use yd_ops::Update;
use yd_parts::NoMemory;
use yd_v1::{write_v1, write_vector};

/// The bytes of a message, which stand for that message (y-protocols, writeSyncStep1, writeSyncStep2,
/// writeUpdate and encodeAwarenessUpdate; y-websocket, the number in front). A text, a byte string or
/// a count of 2^53 or more finds no memory (own).
pub fn write_message(alloc: Global, message: &Message) -> Result<Vec<u8>, NoMemory>
    requires { IsValidMessage (message_value message.now) }
    ensures written { IfOk result (λ bytes. bytes.items
        ≡ bytes_of_message (message_value message.now)) }
    ensures read_again { IfOk result (λ bytes.
        StandsForMessage bytes.items (message_value message.now)) }
{
    let bytes = write_value(alloc, message)?;
    Ok(bytes)
}

fn write_value(alloc: Global, message: &Message) -> Result<Vec<u8>, NoMemory>
    requires { IsValidMessage (message_value message.now) }
    ensures written { IfOk result (λ bytes. bytes.items
        ≡ bytes_of_message (message_value message.now)) }
    ensures body { OnOk result (HasBody (message_value message.now)) }
{
    match message {
        Message::Step1(vector) => write_step1(alloc, vector),
        Message::Step2(update) => write_step2(alloc, update),
        Message::Change(update) => write_change(alloc, update),
        Message::Aware(entries) => write_aware(alloc, entries),
        Message::Auth(bytes) => write_all(alloc, OUTER_AUTH, bytes.as_slice()),
        Message::Query => write_all(alloc, OUTER_QUERY, &[]),
    }
}

fn write_step1(alloc: Global, vector: &Vector) -> Result<Vec<u8>, NoMemory>
    ensures written { IfOk result (λ bytes. bytes.items ≡ bytes_of_message (step1 vector.now)) }
    ensures body { OnOk result (HasBody (step1 vector.now)) }
{
    let body = write_vector(alloc, vector)?;
    let bytes = enveloped(alloc, &[OUTER_SYNC, SYNC_STEP1], &body)?;
    Ok(bytes)
}

fn write_step2(alloc: Global, update: &Update) -> Result<Vec<u8>, NoMemory>
    requires { IsValidUpdate (update_value update.now) }
    ensures written { IfOk result (λ bytes. bytes.items
        ≡ bytes_of_message (step2 (update_value update.now))) }
    ensures body { OnOk result (HasBody (step2 (update_value update.now))) }
{
    let body = write_v1(alloc, update)?;
    let bytes = enveloped(alloc, &[OUTER_SYNC, SYNC_STEP2], &body)?;
    Ok(bytes)
}

fn write_change(alloc: Global, update: &Update) -> Result<Vec<u8>, NoMemory>
    requires { IsValidUpdate (update_value update.now) }
    ensures written { IfOk result (λ bytes. bytes.items
        ≡ bytes_of_message (change (update_value update.now))) }
    ensures body { OnOk result (HasBody (change (update_value update.now))) }
{
    let body = write_v1(alloc, update)?;
    let bytes = enveloped(alloc, &[OUTER_SYNC, SYNC_CHANGE], &body)?;
    Ok(bytes)
}

fn write_aware(alloc: Global, entries: &AwareList) -> Result<Vec<u8>, NoMemory>
    requires { Each IsEntry entries.now }
    ensures written { IfOk result (λ bytes. bytes.items ≡ bytes_of_message (aware entries.now)) }
    ensures body { OnOk result (HasBody (aware entries.now)) }
{
    let body = write_entries(alloc, entries)?;
    let bytes = enveloped(alloc, &[OUTER_AWARE], &body)?;
    Ok(bytes)
}

/// Numbers, and a body behind them.
fn enveloped(alloc: Global, numbers: &[u8], body: &[u8]) -> Result<Vec<u8>, NoMemory>
    ensures written { IfOk result (λ bytes. bytes.items ≡ numbers.now ++ shortest_blob body.now) }
    ensures fits { OnOk result (length body.now < 2 ^ 53) }
{
    let mut bytes = Bytes::new(alloc);
    bytes.push_all(numbers)?;
    bytes.push_blob(body)?;
    Ok(bytes.into_vec())
}

/// A number, and all of these bytes behind it.
fn write_all(alloc: Global, number: u8, rest: &[u8]) -> Result<Vec<u8>, NoMemory>
    ensures { IfOk result (λ bytes. bytes.items ≡ number ∷ rest.now) }
{
    let mut bytes = Bytes::new(alloc);
    bytes.push_byte(number)?;
    bytes.push_all(rest)?;
    Ok(bytes.into_vec())
}
