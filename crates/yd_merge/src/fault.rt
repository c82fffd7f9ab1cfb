//! What a call without memory answers.

use std::alloc::{AllocError, AllocFailed};

/// A growth found no memory.
#[derive(Clone, Copy, Debug, PartialEq, Eq)]
pub struct NoMemory;

impl From<AllocError> for NoMemory {
    ghost use Rattle.std.specs.Prelude.{◌≡◌};

    ghost from_gives = { λ _ e. e ≡ record {} };

    fn from(_error: AllocError) -> NoMemory {
        NoMemory
    }
}

impl<T: Drop> From<AllocFailed<T>> for NoMemory {
    ghost use Rattle.std.specs.Prelude.{◌≡◌};

    ghost from_gives = { λ _ e. e ≡ record {} };

    fn from(_error: AllocFailed<T>) -> NoMemory {
        NoMemory
    }
}

impl From<yd_any::NoMemory> for NoMemory {
    ghost use Rattle.std.specs.Prelude.{◌≡◌};

    ghost from_gives = { λ _ e. e ≡ record {} };

    fn from(_error: yd_any::NoMemory) -> NoMemory {
        NoMemory
    }
}

impl From<yd_ids::NoMemory> for NoMemory {
    ghost use Rattle.std.specs.Prelude.{◌≡◌};

    ghost from_gives = { λ _ e. e ≡ record {} };

    fn from(_error: yd_ids::NoMemory) -> NoMemory {
        NoMemory
    }
}

impl From<yd_ops::NoMemory> for NoMemory {
    ghost use Rattle.std.specs.Prelude.{◌≡◌};

    ghost from_gives = { λ _ e. e ≡ record {} };

    fn from(_error: yd_ops::NoMemory) -> NoMemory {
        NoMemory
    }
}

impl From<yd_building::NoMemory> for NoMemory {
    ghost use Rattle.std.specs.Prelude.{◌≡◌};

    ghost from_gives = { λ _ e. e ≡ record {} };

    fn from(_error: yd_building::NoMemory) -> NoMemory {
        NoMemory
    }
}

impl From<yd_received::NoMemory> for NoMemory {
    ghost use Rattle.std.specs.Prelude.{◌≡◌};

    ghost from_gives = { λ _ e. e ≡ record {} };

    fn from(_error: yd_received::NoMemory) -> NoMemory {
        NoMemory
    }
}
