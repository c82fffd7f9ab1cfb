//! The writer of a column of bytes.

ghost use Rattle.std.specs.Prelude.{◌≡◌, Some, IfOk, OnOk, OnErr};
ghost use Rattle.yd_cols.specs.Writable.{FitsByte, HandFits};
ghost use Rattle.yd_cols.specs.Writing.{byte_column, no_runs, put_byte, written};

use crate::run::Run;
use crate::run_writing::write_byte_run;
use std::alloc::Global;
use std::marker::Model;
use yd_num::{Bytes, NoMemory};

/// The greatest count of a run, 2^53-1, which is the greatest that is read.
const MOST_MORE: u64 = (1 << 53) - 1;

/// A column of bytes that grows by one after the other; equal ones in a row take one run, and the
/// count of the last run is left out (lib0, RleEncoder; the limit of a run is own). A call takes
/// constant time, but for the growth of memory.
#[derive(Drop)]
pub struct ByteWriter {
    bytes: Bytes,
    hand: Option<Run<u8>>,
}

impl Model for ByteWriter {
    ghost use Rattle.std.specs.Prelude.{ℕ};
    ghost use Rattle.yd_cols.specs.Writable.{FitsByte, HandFits};
    ghost use Rattle.yd_cols.specs.Writing.{RunsWritten};

    ghost Value = { RunsWritten ℕ };

    ghost view = { λ w. record { bytes = w.bytes; hand = w.hand } };

    ghost invariant = { λ w. HandFits FitsByte w.hand };
}

impl ByteWriter {
    /// No bytes yet.
    pub fn new(alloc: Global) -> ByteWriter
        ensures { result ≡ no_runs }
    {
        ByteWriter {
            bytes: Bytes::new(alloc),
            hand: None,
        }
    }

    /// Writes a byte behind the others, or leaves them as they were (lib0, RleEncoder).
    pub fn push(&mut self, v: u8) -> Result<(), NoMemory>
        ensures put { OnOk result (self.new ≡ put_byte v self.old) }
        ensures unchanged { OnErr result (self.new ≡ self.old) }
    {
        let run = put(&mut self.bytes, self.hand, v)?;
        self.hand = Some(run);
        Ok(())
    }

    /// The bytes of the whole column.
    pub fn finish(self) -> Result<Vec<u8>, NoMemory>
        ensures { IfOk result (λ bytes. bytes.items ≡ byte_column self) }
    {
        let mut bytes = self.bytes;
        if let Some(run) = self.hand {
            bytes.push_byte(run.value)?;
        }
        Ok(bytes.into_vec())
    }
}

/// The run that is in hand behind a byte more; the one before is written, if it does not take it.
fn put(bytes: &mut Bytes, hand: Option<Run<u8>>, v: u8) -> Result<Run<u8>, NoMemory>
    requires { HandFits FitsByte hand }
    ensures put { IfOk result (λ run. written bytes.new (Some run)
        ≡ put_byte v (written bytes.old hand)) }
    ensures fits { IfOk result (λ run. FitsByte run) }
    ensures unchanged { OnErr result (bytes.new ≡ bytes.old) }
{
    if let Some(run) = hand {
        if run.value == v && run.more < MOST_MORE {
            return Ok(Run {
                value: v,
                more: run.more + 1,
            });
        }
        write_byte_run(bytes, run)?;
    }
    Ok(Run { value: v, more: 0 })
}
