//! The writer of a column of numbers.

ghost use Rattle.std.specs.Prelude.{◌≡◌, ◌^◌, ◌<◌, Some, IfOk, OnOk, OnErr};
ghost use Rattle.yd_cols.specs.Writable.{FitsUint, HandFits};
ghost use Rattle.yd_cols.specs.Writing.{no_runs, put_uint, uint_column, written};

use crate::run::Run;
use crate::run_writing::{MOST_MORE, write_uint_run};
use std::alloc::Global;
use std::marker::Model;
use yd_num::{Bytes, NoMemory};

/// A column of numbers from 0 to 2^53-1 that grows by one after the other; equal ones in a row take
/// one run (lib0, UintOptRleEncoder; the limits are own). A call takes constant time, but for the
/// growth of memory.
#[derive(Drop)]
pub struct UintWriter {
    bytes: Bytes,
    hand: Option<Run<u64>>,
}

impl Model for UintWriter {
    ghost use Rattle.std.specs.Prelude.{ℕ};
    ghost use Rattle.yd_cols.specs.Writable.{FitsUint, HandFits};
    ghost use Rattle.yd_cols.specs.Writing.{RunsWritten};

    ghost Value = { RunsWritten ℕ };

    ghost view = { λ w. record { bytes = w.bytes; hand = w.hand } };

    ghost invariant = { λ w. HandFits FitsUint w.hand };
}

impl UintWriter {
    /// No numbers yet.
    pub fn new(alloc: Global) -> UintWriter
        ensures { result ≡ no_runs }
    {
        UintWriter {
            bytes: Bytes::new(alloc),
            hand: None,
        }
    }

    /// Writes a number behind the others, or leaves them as they were (lib0, UintOptRleEncoder).
    pub fn push(&mut self, v: u64) -> Result<(), NoMemory>
        requires { v < 2 ^ 53 }
        ensures put { OnOk result (self.new ≡ put_uint v self.old) }
        ensures unchanged { OnErr result (self.new ≡ self.old) }
    {
        let run = put(&mut self.bytes, self.hand, v)?;
        self.hand = Some(run);
        Ok(())
    }

    /// The bytes of the whole column.
    pub fn finish(self) -> Result<Vec<u8>, NoMemory>
        ensures { IfOk result (λ bytes. bytes.items ≡ uint_column self) }
    {
        let mut bytes = self.bytes;
        if let Some(run) = self.hand {
            write_uint_run(&mut bytes, run)?;
        }
        Ok(bytes.into_vec())
    }
}

/// The run that is in hand behind a number more; the one before is written, if it does not take it.
fn put(bytes: &mut Bytes, hand: Option<Run<u64>>, v: u64) -> Result<Run<u64>, NoMemory>
    requires value { v < 2 ^ 53 }
    requires hand { HandFits FitsUint hand }
    ensures put { IfOk result (λ run. written bytes.new (Some run)
        ≡ put_uint v (written bytes.old hand)) }
    ensures fits { IfOk result (λ run. FitsUint run) }
    ensures unchanged { OnErr result (bytes.new ≡ bytes.old) }
{
    if let Some(run) = hand {
        if run.value == v && run.more < MOST_MORE {
            return Ok(Run {
                value: v,
                more: run.more + 1,
            });
        }
        write_uint_run(bytes, run)?;
    }
    Ok(Run { value: v, more: 0 })
}
