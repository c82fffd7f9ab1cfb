//! Bytes that grow at their end. What lies behind them is filled ahead, so that a short piece is
//! stored with one test.

ghost use Rattle.std.specs.Prelude.{◌≡◌, ◌+◌, ◌≤◌, ◌++◌, length, take, vec_len, OnOk, OnErr};

use crate::fault::NoMemory;
use std::marker::Model;

static ZEROS: [u8; 1024] = [0; 1024];

/// Bytes to which pieces are appended.
#[derive(Drop)]
pub struct Page {
    bytes: Vec<u8>,
    // So many of them count.
    len: usize,
}

impl Model for Page {
    ghost use Rattle.std.specs.Prelude.{List, ℕ, ◌≤◌, length, take};

    ghost Value = { List ℕ };

    ghost view = { λ p. take p.len p.bytes.items };

    ghost invariant = { λ p. p.len ≤ length p.bytes.items };
}

impl Page {
    /// These bytes.
    pub fn new(bytes: Vec<u8>) -> Page
        ensures { result ≡ bytes.items }
    {
        let len = bytes.len();
        Page { bytes, len }
    }

    /// The bytes, in a vector.
    pub fn into_bytes(self) -> Vec<u8>
        ensures { result.items ≡ self }
    {
        let Page { mut bytes, len } = self;
        bytes.truncate(len);
        bytes
    }

    /// Appends a piece.
    #[inline(always)]
    pub fn put(&mut self, piece: &[u8]) -> Result<(), NoMemory>
        ensures appended { OnOk result (self.new ≡ self.old ++ piece.now) }
        ensures unchanged { OnErr result (self.new ≡ self.old) }
    {
        make_room(&mut self.bytes, self.len, piece.len())?;
        self.len = place(&mut self.bytes, self.len, piece);
        Ok(())
    }
}

/// Stores a piece at a place, and answers where it ends.
#[inline(always)]
fn place(bytes: &mut Vec<u8>, at: usize, piece: &[u8]) -> usize
    requires { at + length piece.now ≤ vec_len bytes.old }
    ensures end { result ≡ at + length piece.now }
    ensures stored { take result bytes.new.items ≡ take at bytes.old.items ++ piece.now }
    ensures len { vec_len bytes.new ≡ vec_len bytes.old }
{
    let end = at + piece.len();
    bytes[at..end].copy_from_slice(piece);
    end
}

/// Makes room for so many bytes behind the first `len`, which stay.
#[inline(always)]
fn make_room(bytes: &mut Vec<u8>, len: usize, more: usize) -> Result<(), NoMemory>
    requires { len ≤ vec_len bytes.old }
    ensures front { take len bytes.new.items ≡ take len bytes.old.items }
    ensures kept { len ≤ vec_len bytes.new }
    ensures room { OnOk result (len + more ≤ vec_len bytes.new) }
{
    if more <= bytes.len() - len {
        return Ok(());
    }
    fill(bytes, more)
}

/// Appends zeros, so many or more.
#[cold]
#[inline(never)]
fn fill(bytes: &mut Vec<u8>, more: usize) -> Result<(), NoMemory>
    ensures front { take (vec_len bytes.old) bytes.new.items ≡ bytes.old.items }
    ensures grown { vec_len bytes.old ≤ vec_len bytes.new }
    ensures room { OnOk result (vec_len bytes.old + more ≤ vec_len bytes.new) }
{
    let mut left = more;
    while left > 0 {
        bytes.extend_from_slice(&ZEROS)?;
        left = left.saturating_sub(ZEROS.len());
    }
    Ok(())
}
