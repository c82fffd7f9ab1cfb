//! Reading a column of numbers by their differences.

ghost use Rattle.std.specs.Prelude.{◌≡◌, ◌<◌, ◌^◌, pos, ◌+ℤ◌, IfSome};
ghost use Rattle.yd_cols.specs.Answer.{GivesNext};
ghost use Rattle.yd_cols.specs.Reading.{diff_run_at, diffs_in, end_of_diffs, in_range, next_diff, next_in};

use crate::fault::{ColCause, ColFault};
use crate::run_reading::read_diff_run;
use crate::runs::Runs;
use std::marker::Model;
use yd_num::Cursor;

/// Reads a column of numbers by their differences, one by one, in time of the bytes that it reads
/// (lib0, IntDiffOptRleDecoder). No call takes memory.
#[derive(Drop)]
pub struct IntDiffReader<'a> {
    before: u64,
    runs: Runs<'a, i64>,
}

impl<'a> Model for IntDiffReader<'a> {
    ghost use Rattle.std.specs.Prelude.{◌<◌, ◌^◌};
    ghost use Rattle.yd_cols.specs.Reading.{DiffsLeft};

    ghost Value = { DiffsLeft };

    ghost view = { λ r. record { before = r.before; runs = r.runs } };

    ghost invariant = { λ r. r.before < 2 ^ 53 };
}

impl<'a> IntDiffReader<'a> {
    /// A reader before the first of these bytes.
    pub fn new(bytes: &'a [u8]) -> IntDiffReader<'a>
        ensures { result ≡ diffs_in bytes.now }
    {
        IntDiffReader {
            before: 0,
            runs: Runs::new(0, Cursor::new(bytes)),
        }
    }

    /// The place of the run that gave the last number, in bytes from the column's first.
    pub fn place(&self) -> usize
        ensures { result ≡ self.now.runs.at }
    {
        self.runs.place()
    }

    /// Reads the next number, at most 2^53-1. After a fault the same is answered again.
    #[tactic(auto, unfolding(crate::specs::Reading::next_diff))]
    pub fn next(&mut self) -> Result<u64, ColFault>
        ensures { GivesNext (λ v. v) self.old self.new result (next_diff self.old) }
    {
        let mut runs = self.runs.copy();
        let step = next_step(&mut runs)?;
        let Some(value) = stepped(self.before, step) else {
            return Err(ColFault {
                cause: ColCause::NumberTooLarge,
                at: runs.place(),
            });
        };
        self.before = value;
        self.runs = runs;
        Ok(value)
    }

    /// Judges whether a number is left.
    pub fn finish(self) -> Result<(), ColFault>
        ensures { result ≡ end_of_diffs self.entry }
    {
        self.runs.end()
    }
}

#[tactic(auto, unfolding(crate::specs::Reading::next_in))]
fn next_step(runs: &mut Runs<'_, i64>) -> Result<i64, ColFault>
    ensures { GivesNext (λ d. d) runs.old runs.new result (next_in diff_run_at runs.old) }
{
    if let Some(step) = runs.hand() {
        return Ok(step);
    }
    let mut ahead = runs.ahead();
    match read_diff_run(&mut ahead) {
        Err(fault) => Err(runs.fault(fault)),
        Ok(run) => Ok(runs.open(run, ahead)),
    }
}

// The number so far from another one, unless it is out of range.
fn stepped(before: u64, step: i64) -> Option<u64>
    requires { before < 2 ^ 53 }
    ensures stepped { result ≡ in_range (pos before +ℤ step) }
    ensures fits { IfSome result (λ v. v < 2 ^ 53) }
{
    let value = (before as i64).checked_add(step)?;
    if value < 0 || value >= 1 << 53 {
        return None;
    }
    Some(value as u64)
}
