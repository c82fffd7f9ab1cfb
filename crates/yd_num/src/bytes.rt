//! Bytes that grow by one field after the other.

ghost use Rattle.std.specs.Prelude.{◌≡◌, ◌^◌, ◌<◌, [], ◌∷◌, ◌++◌, length, take, OnOk, OnErr};
ghost use Rattle.yd_num.specs.Writing.{shortest, shortest_signed, shortest_blob};

use crate::fault::NoMemory;
use crate::field::MOST;
use crate::signed::Signed;
use crate::writing::{write_signed, write_unsigned};
use std::alloc::Global;
use std::marker::Model;

/// Bytes that are written, seen as a list of bytes. Each push writes one whole field behind them,
/// or answers [`NoMemory`] and leaves them as they were (lib0, encoding).
#[derive(Drop)]
pub struct Bytes {
    bytes: Vec<u8>,
}

impl Model for Bytes {
    ghost use Rattle.std.specs.Prelude.{ℕ, List};

    ghost Value = { List ℕ };

    ghost view = { λ b. b.bytes.items };
}

impl Bytes {
    /// No bytes yet.
    pub fn new(alloc: Global) -> Bytes
        ensures { result ≡ [] }
    {
        Bytes {
            bytes: Vec::new(alloc),
        }
    }

    /// All bytes that were written.
    pub fn as_slice(&self) -> &[u8]
        ensures { result.now ≡ self.now }
    {
        self.bytes.as_slice()
    }

    /// All bytes that were written, given away.
    pub fn into_vec(self) -> Vec<u8>
        ensures { result.items ≡ self }
    {
        self.bytes
    }

    /// Keeps the first `len` bytes, and forgets the others.
    pub fn truncate(&mut self, len: usize)
        ensures { self.new ≡ take len self.old }
    {
        self.bytes.truncate(len);
    }

    /// Writes one byte (lib0, writeUint8).
    pub fn push_byte(&mut self, b: u8) -> Result<(), NoMemory>
        ensures appended { OnOk result (self.new ≡ self.old ++ b ∷ []) }
        ensures unchanged { OnErr result (self.new ≡ self.old) }
    {
        self.bytes.push(b)?;
        Ok(())
    }

    /// Writes bytes as they stand, with no length before them (lib0, writeUint8Array).
    pub fn push_all(&mut self, b: &[u8]) -> Result<(), NoMemory>
        ensures appended { OnOk result (self.new ≡ self.old ++ b.now) }
        ensures unchanged { OnErr result (self.new ≡ self.old) }
    {
        self.bytes.extend_from_slice(b)?;
        Ok(())
    }

    /// Writes an unsigned number, at most 2^53-1, in the fewest bytes, which are 1 to 8 (lib0,
    /// writeVarUint; the limit is own).
    #[inline(always)]
    #[tactic(auto, using(crate::proofs::WritingLemmas::shortest_one))]
    pub fn push_unsigned(&mut self, v: u64) -> Result<(), NoMemory>
        requires { v < 2 ^ 53 }
        ensures appended { OnOk result (self.new ≡ self.old ++ shortest v) }
        ensures unchanged { OnErr result (self.new ≡ self.old) }
    {
        // Most numbers are below 128, which is one byte.
        if v < 128 {
            self.bytes.push(v as u8)?;
            return Ok(());
        }
        let start = self.bytes.len();
        if write_unsigned(&mut self.bytes, v).is_err() {
            self.bytes.truncate(start);
            return Err(NoMemory);
        }
        Ok(())
    }

    /// Writes a signed number of a size of at most 2^55-1 in the fewest bytes, which are 1 to 8;
    /// zero keeps its sign (lib0, writeVarInt; the limit is own).
    pub fn push_signed(&mut self, s: Signed) -> Result<(), NoMemory>
        requires { s.size < 2 ^ 55 }
        ensures appended { OnOk result (self.new ≡ self.old ++ shortest_signed s) }
        ensures unchanged { OnErr result (self.new ≡ self.old) }
    {
        let start = self.bytes.len();
        if write_signed(&mut self.bytes, s).is_err() {
            self.bytes.truncate(start);
            return Err(NoMemory);
        }
        Ok(())
    }

    /// Writes a text: how many bytes of UTF-8 it has, and then these (lib0, writeVarString). One
    /// of 2^53 bytes or more finds no memory (own).
    pub fn push_text(&mut self, t: &str) -> Result<(), NoMemory>
        ensures appended { OnOk result (self.new ≡ self.old ++ shortest_blob t.now) }
        ensures fits { OnOk result (length t.now < 2 ^ 53) }
        ensures unchanged { OnErr result (self.new ≡ self.old) }
    {
        self.push_blob(t.as_bytes())
    }

    /// Writes a byte string: how many bytes it has, and then these (lib0, writeVarUint8Array). One
    /// of 2^53 bytes or more finds no memory (own).
    pub fn push_blob(&mut self, b: &[u8]) -> Result<(), NoMemory>
        ensures appended { OnOk result (self.new ≡ self.old ++ shortest_blob b.now) }
        ensures fits { OnOk result (length b.now < 2 ^ 53) }
        ensures unchanged { OnErr result (self.new ≡ self.old) }
    {
        let len = b.len() as u64;
        if len > MOST {
            return Err(NoMemory);
        }
        let start = self.bytes.len();
        self.push_unsigned(len)?;
        if self.push_all(b).is_err() {
            self.bytes.truncate(start);
            return Err(NoMemory);
        }
        Ok(())
    }
}
