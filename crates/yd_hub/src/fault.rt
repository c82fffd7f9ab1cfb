//! What a call without memory answers.

use std::alloc::{AllocError, AllocFailed};

/// A growth found no memory.
#[derive(Clone, Copy, Debug, PartialEq, Eq)]
pub struct NoMemory;

impl From<AllocError> for NoMemory {
    ghost use Rattle.std.specs.Prelude.{⊤};

    ghost from_gives = { λ _ _. ⊤ };

    fn from(_refused: AllocError) -> NoMemory {
        NoMemory
    }
}

impl<T: Drop> From<AllocFailed<T>> for NoMemory {
    ghost use Rattle.std.specs.Prelude.{⊤};

    ghost from_gives = { λ _ _. ⊤ };

    fn from(_refused: AllocFailed<T>) -> NoMemory {
        NoMemory
    }
}
