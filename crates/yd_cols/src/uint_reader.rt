//! Reading a column of numbers.

ghost use Rattle.std.specs.Prelude.{◌≡◌, ◌<◌, ◌^◌};
ghost use Rattle.yd_cols.specs.Answer.{GivesNext};
ghost use Rattle.yd_cols.specs.Reading.{end_of_uints, next_uint, runs_from, uints_in};

use crate::fault::ColFault;
use crate::run_reading::read_uint_run;
use crate::runs::Runs;
use std::marker::Model;
use yd_num::Cursor;

/// Reads a column of numbers one by one, in time of the bytes that it reads (lib0,
/// UintOptRleDecoder). No call takes memory.
#[derive(Drop)]
pub struct UintReader<'a> {
    runs: Runs<'a, u64>,
}

impl<'a> Model for UintReader<'a> {
    ghost use Rattle.std.specs.Prelude.{ℕ, ◌<◌, ◌^◌};
    ghost use Rattle.yd_cols.specs.Reading.{RunsLeft};

    ghost Value = { RunsLeft ℕ };

    ghost view = { λ r. r.runs };

    ghost invariant = { λ r. r.runs.value < 2 ^ 53 };
}

impl<'a> UintReader<'a> {
    /// A reader before the first of these bytes.
    pub fn new(bytes: &'a [u8]) -> UintReader<'a>
        ensures { result ≡ uints_in bytes.now }
    {
        UintReader::behind(Cursor::new(bytes))
    }

    /// A reader of the bytes behind a cursor, with the cursor's places.
    pub(crate) fn behind(cursor: Cursor<'a>) -> UintReader<'a>
        ensures { result ≡ runs_from 0 cursor.entry.place cursor.entry.unread }
    {
        UintReader {
            runs: Runs::new(0, cursor),
        }
    }

    /// Another reader at the same place.
    pub(crate) fn copy(&self) -> UintReader<'a>
        ensures { result ≡ self.now }
    {
        UintReader {
            runs: self.runs.copy(),
        }
    }

    /// The number in hand, if there is one, is at most 2^53-1: a fact for callers' proofs.
    pub fn in_range(&self)
        ensures { self.now.value < 2 ^ 53 }
    {
        // Only by its field is it known what the runs keep.
        let _runs = &self.runs;
    }

    /// The place of the run that gave the last number, in bytes from the column's first.
    pub fn place(&self) -> usize
        ensures { result ≡ self.now.at }
    {
        self.runs.place()
    }

    /// The place behind the run in hand.
    pub(crate) fn end_place(&self) -> usize
        ensures { result ≡ self.now.place }
    {
        self.runs.end_place()
    }

    /// Reads the next number, at most 2^53-1. After a fault the same is answered again.
    #[tactic(auto, unfolding(crate::specs::Reading::next_in))]
    pub fn next(&mut self) -> Result<u64, ColFault>
        ensures { GivesNext (λ v. v) self.old self.new result (next_uint self.old) }
    {
        if let Some(value) = self.runs.hand() {
            return Ok(value);
        }
        let mut ahead = self.runs.ahead();
        match read_uint_run(&mut ahead) {
            Err(fault) => Err(self.runs.fault(fault)),
            Ok(run) => Ok(self.runs.open(run, ahead)),
        }
    }

    /// Judges whether a number is left.
    pub fn finish(self) -> Result<(), ColFault>
        ensures { result ≡ end_of_uints self.entry }
    {
        self.runs.end()
    }
}
