//! What a call without memory answers.

use std::alloc::{AllocError, AllocFailed};

/// A growth found no memory.
#[derive(Clone, Copy, Debug, PartialEq, Eq)]
pub struct NoMemory;

impl From<AllocError> for NoMemory {
    ghost use Rattle.std.specs.Prelude.{⊤};

    ghost from_gives = { λ _ _. ⊤ };

    fn from(_error: AllocError) -> NoMemory {
        NoMemory
    }
}

impl<T: Drop> From<AllocFailed<T>> for NoMemory {
    ghost use Rattle.std.specs.Prelude.{⊤};

    ghost from_gives = { λ _ _. ⊤ };

    fn from(_error: AllocFailed<T>) -> NoMemory {
        NoMemory
    }
}

impl From<yd_any::NoMemory> for NoMemory {
    ghost use Rattle.std.specs.Prelude.{⊤};

    ghost from_gives = { λ _ _. ⊤ };

    fn from(_error: yd_any::NoMemory) -> NoMemory {
        NoMemory
    }
}

impl From<yd_units::NoMemory> for NoMemory {
    ghost use Rattle.std.specs.Prelude.{⊤};

    ghost from_gives = { λ _ _. ⊤ };

    fn from(_error: yd_units::NoMemory) -> NoMemory {
        NoMemory
    }
}

impl From<yd_value::NoMemory> for NoMemory {
    ghost use Rattle.std.specs.Prelude.{⊤};

    ghost from_gives = { λ _ _. ⊤ };

    fn from(_error: yd_value::NoMemory) -> NoMemory {
        NoMemory
    }
}

impl From<yd_doc::NoMemory> for NoMemory {
    ghost use Rattle.std.specs.Prelude.{⊤};

    ghost from_gives = { λ _ _. ⊤ };

    fn from(_error: yd_doc::NoMemory) -> NoMemory {
        NoMemory
    }
}

impl From<yd_view::NoMemory> for NoMemory {
    ghost use Rattle.std.specs.Prelude.{⊤};

    ghost from_gives = { λ _ _. ⊤ };

    fn from(_error: yd_view::NoMemory) -> NoMemory {
        NoMemory
    }
}

impl From<yd_ops::NoMemory> for NoMemory {
    ghost use Rattle.std.specs.Prelude.{⊤};

    ghost from_gives = { λ _ _. ⊤ };

    fn from(_error: yd_ops::NoMemory) -> NoMemory {
        NoMemory
    }
}
