//! What a call without memory answers.

use std::alloc::{AllocError, AllocFailed};

/// A growth found no memory.
#[derive(Clone, Copy, Debug, PartialEq, Eq)]
pub struct NoMemory;

impl From<AllocError> for NoMemory {
    ghost use Rattle.std.specs.Prelude.{◌≡◌};
    ghost use Rattle.yd_state.specs.declared.fault.NoMemory.{NoMemory};

    ghost from_gives = { λ _ e. e ≡ record {} };

    fn from(_error: AllocError) -> NoMemory {
        NoMemory
    }
}

impl<T: Drop> From<AllocFailed<T>> for NoMemory {
    ghost use Rattle.std.specs.Prelude.{◌≡◌};

    ghost from_gives = { λ _ e. e ≡ record {} };

    fn from(_error: AllocFailed<T>) -> NoMemory {
        NoMemory
    }
}

impl From<yd_held::NoMemory> for NoMemory {
    ghost use Rattle.std.specs.Prelude.{◌≡◌};

    ghost from_gives = { λ _ e. e ≡ record {} };

    fn from(_error: yd_held::NoMemory) -> NoMemory {
        NoMemory
    }
}

impl From<yd_ids::NoMemory> for NoMemory {
    ghost use Rattle.std.specs.Prelude.{◌≡◌};

    ghost from_gives = { λ _ e. e ≡ record {} };

    fn from(_error: yd_ids::NoMemory) -> NoMemory {
        NoMemory
    }
}

impl From<yd_ops::NoMemory> for NoMemory {
    ghost use Rattle.std.specs.Prelude.{◌≡◌};

    ghost from_gives = { λ _ e. e ≡ record {} };

    fn from(_error: yd_ops::NoMemory) -> NoMemory {
        NoMemory
    }
}

impl From<yd_merge::NoMemory> for NoMemory {
    ghost use Rattle.std.specs.Prelude.{◌≡◌};

    ghost from_gives = { λ _ e. e ≡ record {} };

    fn from(_error: yd_merge::NoMemory) -> NoMemory {
        NoMemory
    }
}
