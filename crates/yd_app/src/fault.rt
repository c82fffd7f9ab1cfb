//! That there was no memory.

ghost use Rattle.std.specs.Prelude.{◌≡◌};
ghost use Rattle.yd_ending.specs.declared.stop.Stop.TheVariants.{NoMemory as NoRoom};

use std::alloc::{AllocError, AllocFailed};
use yd_ending::Stop;

/// A growth found no memory.
#[derive(Clone, Copy, Debug, PartialEq, Eq)]
pub struct NoMemory;

impl From<AllocError> for NoMemory {
    ghost from_gives = { λ _ e. e ≡ record {} };

    fn from(_refused: AllocError) -> NoMemory {
        NoMemory
    }
}

impl<T: Drop> From<AllocFailed<T>> for NoMemory {
    ghost from_gives = { λ _ e. e ≡ record {} };

    fn from(_refused: AllocFailed<T>) -> NoMemory {
        NoMemory
    }
}

impl From<yd_any::NoMemory> for NoMemory {
    ghost from_gives = { λ _ e. e ≡ record {} };

    fn from(_refused: yd_any::NoMemory) -> NoMemory {
        NoMemory
    }
}

impl From<yd_units::NoMemory> for NoMemory {
    ghost from_gives = { λ _ e. e ≡ record {} };

    fn from(_refused: yd_units::NoMemory) -> NoMemory {
        NoMemory
    }
}

impl From<yd_parts::NoMemory> for NoMemory {
    ghost from_gives = { λ _ e. e ≡ record {} };

    fn from(_refused: yd_parts::NoMemory) -> NoMemory {
        NoMemory
    }
}

impl From<yd_doc::NoMemory> for NoMemory {
    ghost from_gives = { λ _ e. e ≡ record {} };

    fn from(_refused: yd_doc::NoMemory) -> NoMemory {
        NoMemory
    }
}

impl From<yd_view::NoMemory> for NoMemory {
    ghost from_gives = { λ _ e. e ≡ record {} };

    fn from(_refused: yd_view::NoMemory) -> NoMemory {
        NoMemory
    }
}

impl From<yd_modes::NoMemory> for NoMemory {
    ghost from_gives = { λ _ e. e ≡ record {} };

    fn from(_refused: yd_modes::NoMemory) -> NoMemory {
        NoMemory
    }
}

impl From<yd_value::NoMemory> for NoMemory {
    ghost from_gives = { λ _ e. e ≡ record {} };

    fn from(_refused: yd_value::NoMemory) -> NoMemory {
        NoMemory
    }
}

impl From<yd_merge::NoMemory> for NoMemory {
    ghost from_gives = { λ _ e. e ≡ record {} };

    fn from(_refused: yd_merge::NoMemory) -> NoMemory {
        NoMemory
    }
}

impl From<yd_checking::NoMemory> for NoMemory {
    ghost from_gives = { λ _ e. e ≡ record {} };

    fn from(_refused: yd_checking::NoMemory) -> NoMemory {
        NoMemory
    }
}

impl<'a> From<NoMemory> for Stop<'a> {
    ghost from_gives = { λ _ stop. stop ≡ NoRoom };

    fn from(_refused: NoMemory) -> Stop<'a> {
        Stop::NoMemory
    }
}
