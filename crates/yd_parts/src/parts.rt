//! Bytes that are read part by part.

ghost use Rattle.std.specs.Prelude.{◌≡◌, length, OnErr};
ghost use Rattle.yd_parts.specs.Fault.{Gives, TakesNoMemory};
ghost use Rattle.yd_parts.specs.Part.{part_at, byte, unsigned, signed, text, blob, raw, all_of, here, last_spot};
ghost use Rattle.yd_parts.specs.Refused.{IsRefusal};

use crate::fault::{Cause, Column, ReadError, Spot};
use std::marker::Model;
use yd_num::{Cursor, NumFault, Signed};

/// Bytes that are read part by part: a byte, a number, a text or a byte string at a time. Faults
/// have their spots in one column. No call takes memory, and a fault leaves all as it was.
#[derive(Drop)]
pub struct Parts<'a> {
    column: Column,
    last: usize,
    cursor: Cursor<'a>,
}

impl<'a> Model for Parts<'a> {
    ghost use Rattle.yd_parts.specs.Part.{Unread};

    ghost Value = { Unread };

    ghost view = { λ p. record {
      column = p.column;
      last = p.last;
      place = p.cursor.place;
      bytes = p.cursor.unread;
    } };
}

impl<'a> Parts<'a> {
    /// All of these bytes, as a column.
    pub fn new(column: Column, bytes: &'a [u8]) -> Parts<'a>
        ensures { result ≡ all_of column bytes.now }
    {
        Parts {
            column,
            last: 0,
            cursor: Cursor::new(bytes),
        }
    }

    /// The spot of the next part.
    pub fn here(&self) -> Spot
        ensures { result ≡ here self.now }
    {
        spot_at(self.column, self.cursor.place())
    }

    /// What is left to read.
    pub fn left(&self) -> usize
        ensures { result ≡ length self.now.bytes }
    {
        self.cursor.left()
    }

    /// Lends the bytes that are left, and stays.
    pub fn rest(&self) -> &'a [u8]
        ensures { result.now ≡ self.now.bytes }
    {
        self.cursor.rest()
    }

    /// The spot of the part that was read last.
    pub fn spot(&self) -> Spot
        ensures { result ≡ last_spot self.now }
    {
        spot_at(self.column, self.last)
    }

    /// Reads one byte.
    pub fn byte(&mut self) -> Result<u8, ReadError>
        ensures given { Gives (λ b. b) result self.new (part_at byte self.old) }
        ensures memory { TakesNoMemory result }
        ensures unchanged { OnErr result (self.new ≡ self.old) }
    {
        let place = self.cursor.place();
        match self.cursor.byte() {
            Err(fault) => Err(refusal(self.column, fault)),
            Ok(value) => {
                self.last = place;
                Ok(value)
            }
        }
    }

    /// Reads an unsigned number, at most 2^53-1.
    #[inline(always)]
    pub fn unsigned(&mut self) -> Result<u64, ReadError>
        ensures given { Gives (λ v. v) result self.new (part_at unsigned self.old) }
        ensures memory { TakesNoMemory result }
        ensures unchanged { OnErr result (self.new ≡ self.old) }
    {
        let place = self.cursor.place();
        match self.cursor.unsigned() {
            Err(fault) => Err(refusal(self.column, fault)),
            Ok(value) => {
                self.last = place;
                Ok(value)
            }
        }
    }

    /// Reads a signed number of a size of at most 2^55-1.
    pub fn signed(&mut self) -> Result<Signed, ReadError>
        ensures given { Gives (λ n. n) result self.new (part_at signed self.old) }
        ensures memory { TakesNoMemory result }
        ensures unchanged { OnErr result (self.new ≡ self.old) }
    {
        let place = self.cursor.place();
        match self.cursor.signed() {
            Err(fault) => Err(refusal(self.column, fault)),
            Ok(value) => {
                self.last = place;
                Ok(value)
            }
        }
    }

    /// Lends a text.
    pub fn text(&mut self) -> Result<&'a str, ReadError>
        ensures given { Gives (λ t. t.now) result self.new (part_at text self.old) }
        ensures memory { TakesNoMemory result }
        ensures unchanged { OnErr result (self.new ≡ self.old) }
    {
        let place = self.cursor.place();
        match self.cursor.text() {
            Err(fault) => Err(refusal(self.column, fault)),
            Ok(value) => {
                self.last = place;
                Ok(value)
            }
        }
    }

    /// Lends a byte string.
    pub fn blob(&mut self) -> Result<&'a [u8], ReadError>
        ensures given { Gives (λ b. b.now) result self.new (part_at blob self.old) }
        ensures memory { TakesNoMemory result }
        ensures unchanged { OnErr result (self.new ≡ self.old) }
    {
        let place = self.cursor.place();
        match self.cursor.blob() {
            Err(fault) => Err(refusal(self.column, fault)),
            Ok(value) => {
                self.last = place;
                Ok(value)
            }
        }
    }

    /// Reads so many raw bytes.
    pub fn raw<const N: usize>(&mut self) -> Result<[u8; N], ReadError>
        ensures given { Gives (λ b. b) result self.new (part_at (raw N) self.old) }
        ensures memory { TakesNoMemory result }
        ensures unchanged { OnErr result (self.new ≡ self.old) }
    {
        let place = self.cursor.place();
        match self.cursor.take(N as u64) {
            Err(fault) => Err(refusal(self.column, fault)),
            Ok(bytes) => match <[u8; N]>::try_from(bytes) {
                Err(_) => unreachable!(),
                Ok(array) => {
                    self.last = place;
                    Ok(array)
                }
            },
        }
    }
}

fn spot_at(column: Column, place: usize) -> Spot
    ensures { result ≡ record { column = column; at = place } }
{
    Spot {
        column,
        at: place as u64,
    }
}

#[inline(never)]
fn refusal(column: Column, fault: NumFault) -> ReadError
    ensures { IsRefusal column fault result }
{
    match fault {
        NumFault::ShortInput(place) => ReadError::Fault {
            cause: Cause::ShortInput,
            spot: spot_at(column, place),
        },
        NumFault::NumberTooLarge(place) => ReadError::Fault {
            cause: Cause::NumberTooLarge,
            spot: spot_at(column, place),
        },
        NumFault::BadUtf8(place) => ReadError::Fault {
            cause: Cause::BadUtf8,
            spot: spot_at(column, place),
        },
    }
}
