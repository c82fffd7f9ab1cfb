//! That there was no memory.

ghost use Rattle.std.specs.Prelude.{◌≡◌};
ghost use Rattle.yd_ending.specs.declared.stop.Stop.TheVariants.{NoMemory as NoRoom};

use std::alloc::{AllocError, AllocFailed};
use yd_ending::Stop;

/// A growth found no memory.
#[derive(Clone, Copy, Debug, PartialEq, Eq)]
pub struct NoMemory;

impl From<AllocError> for NoMemory {
    ghost from_gives = { λ _ e. e ≡ record {} };

    fn from(_refused: AllocError) -> NoMemory {
        NoMemory
    }
}

impl<T: Drop> From<AllocFailed<T>> for NoMemory {
    ghost from_gives = { λ _ e. e ≡ record {} };

    fn from(_refused: AllocFailed<T>) -> NoMemory {
        NoMemory
    }
}

impl<'a> From<NoMemory> for Stop<'a> {
    ghost from_gives = { λ _ stop. stop ≡ NoRoom };

    fn from(_refused: NoMemory) -> Stop<'a> {
        Stop::NoMemory
    }
}
