//! Byte strings, each seen as the list of its bytes.

ghost use Rattle.std.specs.Prelude.{◌≡◌, IfOk};

use crate::fault::NoMemory;
use std::alloc::Global;
use std::marker::Model;

/// Bytes that it owns.
#[derive(Debug, Drop)]
pub struct Blob {
    bytes: Vec<u8>,
}

impl Model for Blob {
    ghost use Rattle.std.specs.Prelude.{List, ℕ};

    ghost Value = { List ℕ };

    ghost view = { λ b. b.bytes.items };
}

impl Blob {
    /// A byte string with these bytes.
    pub fn copy_of(alloc: Global, bytes: &[u8]) -> Result<Blob, NoMemory>
        ensures { IfOk result (λ b. b ≡ bytes.now) }
    {
        Ok(Blob {
            bytes: Vec::from_slice(alloc, bytes)?,
        })
    }

    /// The bytes as they are lent.
    pub fn as_slice(&self) -> &[u8]
        ensures { result.now ≡ self.now }
    {
        self.bytes.as_slice()
    }

    /// The same bytes once more.
    pub fn copy(&self) -> Result<Blob, NoMemory>
        ensures { IfOk result (λ b. b ≡ self.now) }
    {
        Blob::copy_of(*self.bytes.allocator(), self.bytes.as_slice())
    }
}
