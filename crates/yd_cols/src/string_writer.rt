//! The writer of a column of strings.

ghost use Rattle.std.specs.Prelude.{◌≡◌, ◌^◌, ◌<◌, ◌≤◌, length, IfOk, OnOk, OnErr};
ghost use Rattle.yd_cols.specs.Column.{units_in};
ghost use Rattle.yd_cols.specs.Writing.{StringsWritten, no_strings, put_string, string_column};

use crate::uint_writer::UintWriter;
use std::alloc::Global;
use std::marker::Model;
use yd_num::{Bytes, NoMemory};

/// The most bytes that the joined text has, 2^53-1, the greatest length that is read.
const MOST: u64 = (1 << 53) - 1;

/// A column of strings that grows by one after the other: one text that joins them, and how many
/// units of UTF-16 each has (lib0, StringEncoder). A call takes time by the bytes of its string
/// alone, but for the growth of memory.
#[derive(Drop)]
pub struct StringWriter {
    text: Vec<u8>,
    lengths: UintWriter,
}

impl Model for StringWriter {
    ghost use Rattle.std.specs.Prelude.{◌^◌, ◌<◌, length};
    ghost use Rattle.yd_cols.specs.Writing.{StringsWritten};

    ghost Value = { StringsWritten };

    ghost view = { λ w. record { text = w.text.items; lengths = w.lengths } };

    ghost invariant = { λ w. length w.text.items < 2 ^ 53 };
}

impl StringWriter {
    /// No strings yet.
    pub fn new(alloc: Global) -> StringWriter
        ensures { result ≡ no_strings }
    {
        StringWriter {
            text: Vec::new(alloc),
            lengths: UintWriter::new(alloc),
        }
    }

    /// Writes a string behind the others, or leaves them as they were (lib0, StringEncoder). A
    /// joined text of 2^53 bytes or more finds no memory (own).
    pub fn push(&mut self, v: &str) -> Result<(), NoMemory>
        ensures put { OnOk result (self.new ≡ put_string v.now self.old) }
        ensures unchanged { OnErr result (self.new ≡ self.old) }
    {
        let len = self.text.len();
        if v.len() as u64 > MOST - len as u64 {
            return Err(NoMemory);
        }
        let units = units_in(v);
        self.text.extend_from_slice(v.as_bytes())?;
        if self.lengths.push(units).is_err() {
            self.text.truncate(len);
            return Err(NoMemory);
        }
        Ok(())
    }

    /// The bytes of the whole column.
    pub fn finish(self) -> Result<Vec<u8>, NoMemory>
        ensures written { IfOk result (λ bytes. bytes.items ≡ string_column self) }
        ensures fits { OnOk result (length self.text < 2 ^ 53) }
    {
        let mut bytes = Bytes::new(*self.text.allocator());
        bytes.push_blob(&self.text)?;
        let lengths = self.lengths.finish()?;
        bytes.push_all(&lengths)?;
        Ok(bytes.into_vec())
    }
}

/// How many units of UTF-16 the string has.
fn units_in(v: &str) -> u64
    ensures count { result ≡ units_in v.now }
    ensures fits { result ≤ length v.now }
{
    let mut units = 0;
    for c in v.chars() {
        units += c.len_utf16() as u64;
    }
    units
}
