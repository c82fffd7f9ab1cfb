//! Bytes that came while a write would block, until they are read.

ghost use Rattle.std.specs.Prelude.{◌≡◌, ◌+◌, ◌≤◌, ◌==◌, ◌++◌, length, take, drop, min, [], OnOk, OnErr, IfOk};

use std::alloc::{AllocError, Global};
use std::marker::Model;

/// How many bytes are kept at most.
const MOST_HELD: usize = 67_108_864;

/// How many bytes there is room for at once.
const CHUNK: usize = 4096;

/// Bytes in the order in which they came, 67,108,864 at most.
#[derive(Drop)]
pub struct Held {
    alloc: Global,
    bytes: Vec<u8>,
    at: usize,
}

impl Model for Held {
    ghost use Rattle.std.specs.Prelude.{ℕ, List, drop, length, ◌≤◌};

    ghost Value = { List ℕ };

    ghost view = { λ h. drop h.at h.bytes.items };

    ghost invariant = { λ h. (h.at ≤ length h.bytes.items) × (length h.bytes.items ≤ 67108864) };
}

impl Held {
    /// No byte.
    pub fn new(alloc: Global) -> Held
        ensures { result ≡ [] }
    {
        Held {
            alloc,
            bytes: Vec::new(alloc),
            at: 0,
        }
    }

    /// Whether no byte is kept.
    pub fn is_empty(&self) -> bool
        ensures { result ≡ (length self.now == 0) }
    {
        self.at >= self.bytes.len()
    }

    /// Gives the first bytes, as many as fit.
    pub fn take(&mut self, buf: &mut [u8]) -> usize
        ensures count { result ≡ min (length buf.old) (length self.old) }
        ensures given { take result buf.new ≡ take result self.old }
        ensures left { self.new ≡ drop result self.old }
    {
        let count = buf.len().min(self.bytes.len() - self.at);
        buf[..count].copy_from_slice(&self.bytes[self.at..self.at + count]);
        self.at += count;
        count
    }

    /// How many bytes may be added now. Their memory is found, and the memory of bytes that were
    /// given is used again.
    pub fn make_room(&mut self) -> Result<usize, AllocError>
        ensures kept { self.new ≡ self.old }
        ensures room { IfOk result (λ room. (room ≤ 4096) × (length self.new + room ≤ 67108864)) }
    {
        self.bytes.drain(..self.at);
        self.at = 0;
        let room = CHUNK.min(MOST_HELD - self.bytes.len());
        self.bytes.reserve(room)?;
        Ok(room)
    }

    /// Adds bytes behind the others.
    pub fn add(&mut self, more: &[u8]) -> Result<(), AllocError>
        requires { length self.old + length more.now ≤ 67108864 }
        ensures added { OnOk result (self.new ≡ self.old ++ more.now) }
        ensures unchanged { OnErr result (self.new ≡ self.old) }
    {
        self.bytes.drain(..self.at);
        self.at = 0;
        self.bytes.extend_from_slice(more)
    }

    /// Gives the memory back if no byte is kept.
    pub fn let_go(&mut self)
        ensures { self.new ≡ self.old }
    {
        if self.is_empty() {
            self.bytes = Vec::new(self.alloc);
            self.at = 0;
        }
    }
}
