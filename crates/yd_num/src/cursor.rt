//! The cursor, which reads one field after the other from a slice.

ghost use Rattle.std.specs.Prelude.{◌≡◌, length};
ghost use Rattle.yd_num.specs.Remainder.{Reads, all_of};
ghost use Rattle.yd_num.specs.Number.{unsigned_at, byte_at};
ghost use Rattle.yd_num.specs.Signed.{signed_at};
ghost use Rattle.yd_num.specs.Text.{bytes_at, blob_at, text_at};

use crate::fault::NumFault;
use crate::field::{blob_of, bytes_of, signed_of, text_of, unsigned_of};
use crate::signed::Signed;
use std::marker::Model;

/// A place in a slice, from which the next field is read.
#[derive(Drop)]
pub struct Cursor<'a> {
    bytes: &'a [u8],
    at: usize,
}

impl<'a> Model for Cursor<'a> {
    ghost use Rattle.std.specs.Prelude.{◌≤◌, length, drop};
    ghost use Rattle.yd_num.specs.Remainder.{Remainder};

    ghost Value = { Remainder };

    ghost view = { λ c. record { place = c.at; unread = drop c.at c.bytes.now } };

    ghost invariant = { λ c. c.at ≤ length c.bytes.now };
}

impl<'a> Cursor<'a> {
    /// A cursor before the first of these bytes.
    pub fn new(bytes: &'a [u8]) -> Cursor<'a>
        ensures { result ≡ all_of bytes.now }
    {
        Cursor { bytes, at: 0 }
    }

    /// How many bytes stand before the next field.
    pub fn place(&self) -> usize
        ensures { result ≡ self.now.place }
    {
        self.at
    }

    /// How many bytes are left.
    pub fn left(&self) -> usize
        ensures { result ≡ length self.now.unread }
    {
        self.bytes.len() - self.at
    }

    /// Lends the bytes that are left, and stays.
    pub fn rest(&self) -> &'a [u8]
        ensures { result.now ≡ self.now.unread }
    {
        let (_, rest) = self.bytes.split_at(self.at);
        rest
    }

    /// Another cursor at the same place.
    pub fn copy(&self) -> Cursor<'a>
        ensures { result ≡ self.now }
    {
        Cursor {
            bytes: self.bytes,
            at: self.at,
        }
    }

    /// Reads one byte.
    #[inline(always)]
    pub fn byte(&mut self) -> Result<u8, NumFault>
        ensures { Reads (λ b. b) self.old self.new result (byte_at self.old.unread) }
    {
        if self.at == self.bytes.len() {
            return Err(NumFault::ShortInput(self.at));
        }
        let byte = self.bytes[self.at];
        self.at += 1;
        Ok(byte)
    }

    /// Reads an unsigned number, at most 2^53-1, in the shortest form or padded to at most 8 bytes
    /// (lib0, readVarUint; the limits are own).
    #[inline(always)]
    pub fn unsigned(&mut self) -> Result<u64, NumFault>
        ensures { Reads (λ v. v) self.old self.new result (unsigned_at self.old.unread) }
    {
        let (_, rest) = self.bytes.split_at(self.at);
        let (value, len) = unsigned_of(rest, self.at)?;
        self.at += len;
        Ok(value)
    }

    /// Reads a signed number of a size of at most 2^55-1, in the shortest form or padded to at most
    /// 8 bytes; the sign of zero is kept (lib0, readVarInt; the limits are own).
    pub fn signed(&mut self) -> Result<Signed, NumFault>
        ensures { Reads (λ s. s) self.old self.new result (signed_at self.old.unread) }
    {
        let (_, rest) = self.bytes.split_at(self.at);
        let (value, len) = signed_of(rest, self.at)?;
        self.at += len;
        Ok(value)
    }

    /// Lends the next `count` bytes.
    pub fn take(&mut self, count: u64) -> Result<&'a [u8], NumFault>
        ensures { Reads (λ b. b.now) self.old self.new result (bytes_at count self.old.unread) }
    {
        let (_, rest) = self.bytes.split_at(self.at);
        let (bytes, len) = bytes_of(rest, count, self.at)?;
        self.at += len;
        Ok(bytes)
    }

    /// Lends a byte string (lib0, readVarUint8Array).
    pub fn blob(&mut self) -> Result<&'a [u8], NumFault>
        ensures { Reads (λ b. b.now) self.old self.new result (blob_at self.old.unread) }
    {
        let (_, rest) = self.bytes.split_at(self.at);
        let (blob, len) = blob_of(rest, self.at)?;
        self.at += len;
        Ok(blob)
    }

    /// Lends a text (lib0, readVarString).
    pub fn text(&mut self) -> Result<&'a str, NumFault>
        ensures { Reads (λ t. t.now) self.old self.new result (text_at self.old.unread) }
    {
        let (_, rest) = self.bytes.split_at(self.at);
        let (text, len) = text_of(rest, self.at)?;
        self.at += len;
        Ok(text)
    }
}
