//! Why a field could not be read, and where it begins; and that one could not be written.

use std::alloc::{AllocError, AllocFailed};
use thiserror::Error;

/// What is wrong with a field. The number is the place of the field's first byte, counted in bytes
/// from the start of what the cursor was made of (lib0, decoding; the limits are own).
#[derive(Clone, Copy, Debug, PartialEq, Eq, Error)]
pub enum NumFault {
    /// The bytes end inside the field.
    #[error("the bytes end inside the field at {0}")]
    ShortInput(usize),
    /// A number, or a field's length, is longer than 8 bytes, or an unsigned one is past 2^53-1.
    #[error("the number at {0} is too large")]
    NumberTooLarge(usize),
    /// A text's bytes are not UTF-8.
    #[error("the text at {0} is not UTF-8")]
    BadUtf8(usize),
}

/// A growth found no memory, and what should have grown is as it was (own).
#[derive(Clone, Copy, Debug, PartialEq, Eq)]
pub struct NoMemory;

impl From<AllocError> for NoMemory {
    ghost use Rattle.std.specs.Prelude.{◌≡◌};

    ghost from_gives = { λ _ fault. fault ≡ record {} };

    fn from(_: AllocError) -> NoMemory {
        NoMemory
    }
}

impl<T: Drop> From<AllocFailed<T>> for NoMemory {
    ghost use Rattle.std.specs.Prelude.{◌≡◌};

    ghost from_gives = { λ _ fault. fault ≡ record {} };

    fn from(_: AllocFailed<T>) -> NoMemory {
        NoMemory
    }
}
