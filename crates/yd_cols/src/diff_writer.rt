//! The writer of a column of numbers by their differences.

ghost use Rattle.std.specs.Prelude.{◌≡◌, ◌^◌, ◌<◌, Some, IfOk, OnOk, OnErr};
ghost use Rattle.yd_cols.specs.Writable.{FitsDiff, HandFits, IsStep};
ghost use Rattle.yd_cols.specs.Writing.{diff_column, no_diffs, put_diff, put_step, written};

use crate::run::Run;
use crate::run_writing::{MOST_MORE, write_diff_run};
use std::alloc::Global;
use std::marker::Model;
use yd_num::{Bytes, NoMemory};

/// A column of numbers from 0 to 2^53-1 that grows by one after the other, and keeps how far each
/// is from the one before it; equal differences in a row take one run (lib0, IntDiffOptRleEncoder;
/// the limits are own). A call takes constant time, but for the growth of memory.
#[derive(Drop)]
pub struct IntDiffWriter {
    last: u64,
    bytes: Bytes,
    hand: Option<Run<i64>>,
}

impl Model for IntDiffWriter {
    ghost use Rattle.std.specs.Prelude.{◌^◌, ◌<◌};
    ghost use Rattle.yd_cols.specs.Writable.{FitsDiff, HandFits};
    ghost use Rattle.yd_cols.specs.Writing.{DiffsWritten};

    ghost Value = { DiffsWritten };

    ghost view = { λ w. record {
      last = w.last;
      runs = record { bytes = w.bytes; hand = w.hand };
    } };

    ghost invariant = { λ w. (w.last < 2 ^ 53) × HandFits FitsDiff w.hand };
}

impl IntDiffWriter {
    /// No numbers yet.
    pub fn new(alloc: Global) -> IntDiffWriter
        ensures { result ≡ no_diffs }
    {
        IntDiffWriter {
            last: 0,
            bytes: Bytes::new(alloc),
            hand: None,
        }
    }

    /// Writes a number behind the others, or leaves them as they were (lib0, IntDiffOptRleEncoder).
    pub fn push(&mut self, v: u64) -> Result<(), NoMemory>
        requires { v < 2 ^ 53 }
        ensures put { OnOk result (self.new ≡ put_diff v self.old) }
        ensures unchanged { OnErr result (self.new ≡ self.old) }
    {
        let step = v as i64 - self.last as i64;
        let run = put(&mut self.bytes, self.hand, step)?;
        self.hand = Some(run);
        self.last = v;
        Ok(())
    }

    /// The bytes of the whole column.
    pub fn finish(self) -> Result<Vec<u8>, NoMemory>
        ensures { IfOk result (λ bytes. bytes.items ≡ diff_column self) }
    {
        let mut bytes = self.bytes;
        if let Some(run) = self.hand {
            write_diff_run(&mut bytes, run)?;
        }
        Ok(bytes.into_vec())
    }
}

/// The run that is in hand behind a difference more; the one before is written, if it does not take
/// it.
fn put(bytes: &mut Bytes, hand: Option<Run<i64>>, step: i64) -> Result<Run<i64>, NoMemory>
    requires step { IsStep step }
    requires hand { HandFits FitsDiff hand }
    ensures put { IfOk result (λ run. written bytes.new (Some run)
        ≡ put_step step (written bytes.old hand)) }
    ensures fits { IfOk result (λ run. FitsDiff run) }
    ensures unchanged { OnErr result (bytes.new ≡ bytes.old) }
{
    if let Some(run) = hand {
        if run.value == step && run.more < MOST_MORE {
            return Ok(Run {
                value: step,
                more: run.more + 1,
            });
        }
        write_diff_run(bytes, run)?;
    }
    Ok(Run {
        value: step,
        more: 0,
    })
}
