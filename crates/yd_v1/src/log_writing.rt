//! Log files, written.

ghost use Rattle.std.specs.Prelude.{◌≡◌, ◌++◌, map, IfOk, OnErr, OnOk};
ghost use Rattle.yd_num.specs.Writing.{shortest_blob};
ghost use Rattle.yd_words.specs.Each.{Each};
ghost use Rattle.yd_ops.specs.Valid.{IsValidUpdate};
ghost use Rattle.yd_ops.specs.View.{update_value};
ghost use Rattle.yd_v1.specs.Log.{StandsForLog};
ghost use Rattle.yd_v1.specs.LogWriting.{IsBody, PassesEntry, body_of, log_bytes};
ghost use Rattle.yd_v1.specs.Reading.{v1_reading};
ghost use Rattle.yd_parts.specs.Fault.{FailsAs};

use crate::reading::take_structs_v1;
use crate::writer::V1Writer;
use std::alloc::Global;
use yd_fields::{write_deletes, write_update};
use yd_num::Bytes;
use yd_ops::Update;
use yd_parts::{NoMemory, ReadError};

/// The bytes of a log of the updates, in their order, which stand for these updates. An update of
/// 2^53 bytes or more finds no memory (own).
pub fn write_log(alloc: Global, updates: &[Update]) -> Result<Vec<u8>, NoMemory>
    requires { Each IsValidUpdate (map update_value updates.now) }
    ensures written { IfOk result (λ bytes. bytes.items ≡ log_bytes (map update_value updates.now)) }
    ensures read_again { IfOk result (λ bytes.
        StandsForLog bytes.items (map update_value updates.now)) }
{
    let mut log = Bytes::new(alloc);
    let mut body = V1Writer::new(alloc);
    for update in updates {
        write_entry(alloc, update, &mut body, &mut log)?;
    }
    Ok(log.into_vec())
}

/// Appends the entry of one update. Its body is made in the memory of those before.
pub(crate) fn write_entry(
    alloc: Global,
    update: &Update,
    body: &mut V1Writer,
    log: &mut Bytes,
) -> Result<(), NoMemory>
    requires { IsValidUpdate (update_value update.now) }
    ensures appended { OnOk result
        (log.new ≡ log.old ++ shortest_blob (body_of (update_value update.now))) }
    ensures again { OnOk result
        (IsBody (body_of (update_value update.now)) (update_value update.now)) }
    ensures unchanged { OnErr result (log.new ≡ log.old) }
{
    body.clear();
    write_update(alloc, update, body)?;
    log.push_blob(body.as_slice())?;
    Ok(())
}

/// Appends the entry of the update that bytes in V1 stand for. It is written while it is read.
pub(crate) fn pass_entry(
    alloc: Global,
    bytes: &[u8],
    body: &mut V1Writer,
    log: &mut Bytes,
) -> Result<(), ReadError>
    ensures appended { OnOk result (PassesEntry bytes.now log.old log.new) }
    ensures fails { FailsAs result (v1_reading bytes.now) }
    ensures unchanged { OnErr result (log.new ≡ log.old) }
{
    body.clear();
    let deletes = take_structs_v1(alloc, bytes, body)?;
    write_deletes(alloc, &deletes, body)?;
    match log.push_blob(body.as_slice()) {
        Ok(()) => Ok(()),
        Err(_) => Err(ReadError::NoMemory),
    }
}
