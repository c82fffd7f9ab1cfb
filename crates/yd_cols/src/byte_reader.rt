//! Reading a column of bytes.

ghost use Rattle.std.specs.Prelude.{◌≡◌};
ghost use Rattle.yd_cols.specs.Answer.{GivesNext, ReadsRun};
ghost use Rattle.yd_cols.specs.Reading.{byte_run_at, bytes_in, end_of_bytes, next_byte};

use crate::fault::ColFault;
use crate::run::Run;
use crate::runs::Runs;
use std::marker::Model;
use yd_num::{Cursor, NumFault};

/// Reads a column of bytes one by one, in time of the bytes that it reads (lib0, RleDecoder). The
/// last run may lack its count, and then gives its byte as often as it is asked. No call takes
/// memory.
#[derive(Drop)]
pub struct ByteReader<'a> {
    is_open: bool,
    runs: Runs<'a, u8>,
}

impl<'a> Model for ByteReader<'a> {
    ghost use Rattle.yd_cols.specs.Reading.{BytesLeft};

    ghost Value = { BytesLeft };

    ghost view = { λ r. record { is_open = r.is_open; runs = r.runs } };
}

impl<'a> ByteReader<'a> {
    /// A reader before the first of these bytes.
    pub fn new(bytes: &'a [u8]) -> ByteReader<'a>
        ensures { result ≡ bytes_in bytes.now }
    {
        ByteReader {
            is_open: false,
            runs: Runs::new(0, Cursor::new(bytes)),
        }
    }

    /// The place of the run that gave the last byte, in bytes from the column's first.
    pub fn place(&self) -> usize
        ensures { result ≡ self.now.runs.at }
    {
        self.runs.place()
    }

    /// Reads the next byte. After a fault the same is answered again.
    #[tactic(auto, unfolding(crate::specs::Reading::next_byte))]
    pub fn next(&mut self) -> Result<u8, ColFault>
        ensures { GivesNext (λ b. b) self.old self.new result (next_byte self.old) }
    {
        if self.is_open {
            return Ok(self.runs.value());
        }
        if let Some(byte) = self.runs.hand() {
            return Ok(byte);
        }
        let mut ahead = self.runs.ahead();
        match read_byte_run(&mut ahead) {
            Err(fault) => Err(self.runs.fault(fault)),
            Ok((run, is_open)) => {
                self.is_open = is_open;
                Ok(self.runs.open(run, ahead))
            }
        }
    }

    /// Judges whether a byte is left. A last run without a count is left only where no byte of it
    /// was read.
    pub fn finish(self) -> Result<(), ColFault>
        ensures { result ≡ end_of_bytes self.entry }
    {
        if self.is_open {
            return Ok(());
        }
        self.runs.end()
    }
}

// A run of bytes, and whether it lacks its count.
#[tactic(auto, unfolding(crate::specs::Reading::byte_run_at))]
fn read_byte_run(cursor: &mut Cursor<'_>) -> Result<(Run<u8>, bool), NumFault>
    ensures { ReadsRun cursor.old cursor.new result (byte_run_at cursor.old.unread) }
{
    let value = cursor.byte()?;
    if cursor.left() == 0 {
        return Ok((Run { value, more: 0 }, true));
    }
    let more = cursor.unsigned()?;
    Ok((Run { value, more }, false))
}
