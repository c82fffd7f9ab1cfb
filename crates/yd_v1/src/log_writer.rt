//! Logs that grow by one update after another.

ghost use Rattle.std.specs.Prelude.{◌≡◌, []};
ghost use Rattle.yd_v1.specs.Log.{StandsForLog};
ghost use Rattle.yd_v1.specs.LogWriting.{log_bytes, updates_in_log};

use crate::log_writing::{pass_entry, write_entry};
use crate::logs::UpdateTaker;
use crate::writer::V1Writer;
use std::alloc::Global;
use std::marker::Model;
use yd_num::Bytes;
use yd_ops::Update;
use yd_parts::{NoMemory, ReadError};

/// Writes a log of the updates that it takes, and keeps none of them. It is seen as the bytes of
/// the log so far.
#[derive(Drop)]
pub struct LogWriter {
    alloc: Global,
    body: V1Writer,
    log: Bytes,
}

impl Model for LogWriter {
    ghost use Rattle.std.specs.Prelude.{ℕ, List};
    ghost use Rattle.yd_v1.specs.LogWriting.{IsWrittenLog};

    ghost Value = { List ℕ };

    ghost view = { λ it. it.log };

    ghost invariant = { λ it. IsWrittenLog it.log };
}

impl LogWriter {
    /// The log of no update.
    pub fn new(alloc: Global) -> LogWriter
        ensures { updates_in_log result ≡ [] }
    {
        LogWriter {
            alloc,
            body: V1Writer::new(alloc),
            log: Bytes::new(alloc),
        }
    }

    /// The bytes of the log, which stand for the updates that were taken (own).
    pub fn finish(self) -> Vec<u8>
        ensures written { result.items ≡ log_bytes (updates_in_log self) }
        ensures read_again { StandsForLog result.items (updates_in_log self) }
    {
        self.log.into_vec()
    }
}

impl UpdateTaker for LogWriter {
    ghost took = { λ log taken. taken ≡ updates_in_log log };

    fn take(&mut self, update: Update) -> Result<(), NoMemory> {
        write_entry(self.alloc, &update, &mut self.body, &mut self.log)?;
        Ok(())
    }

    fn take_v1(&mut self, alloc: Global, bytes: &[u8]) -> Result<(), ReadError> {
        pass_entry(alloc, bytes, &mut self.body, &mut self.log)?;
        Ok(())
    }
}
