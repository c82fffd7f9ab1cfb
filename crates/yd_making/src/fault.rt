//! Why an edit is not carried out.

use std::alloc::{AllocError, AllocFailed};
use yd_ids::Id;

/// A growth found no memory.
#[derive(Clone, Copy, Debug, PartialEq, Eq)]
pub struct NoMemory;

/// Why an edit is not carried out. It has then changed nothing.
#[derive(Clone, Copy, Debug, PartialEq, Eq)]
pub enum EditFault {
    /// A growth found no memory.
    NoMemory,
    /// The item of a step's list is no type item that is held, or the unit behind which a step makes
    /// is none of its list: this one.
    NoPlace(Id),
    /// The smallest of a step's removed ids that is not held.
    NotHeld(Id),
    /// A run that begins at this clock would end past the last clock, 2^53-1.
    ClockFull(u64),
    /// The place parts a pair: behind the unit with this clock, or before the unit with this index.
    InsidePair(u64),
    /// Units of the replica's own client wait, and this is the smallest of their clocks.
    OwnWaiting(u64),
    /// The index is past the length, which is this.
    PastEnd(u64),
    /// The key has no live value.
    NoKey,
    /// There is nothing to undo or to do again.
    Nothing,
}

impl From<AllocError> for NoMemory {
    ghost use Rattle.std.specs.Prelude.{◌≡◌};
    ghost use Rattle.yd_making.specs.declared.fault.NoMemory.{NoMemory};

    ghost from_gives = { λ _ e. e ≡ record {} };

    fn from(_error: AllocError) -> NoMemory {
        NoMemory
    }
}

impl<T: Drop> From<AllocFailed<T>> for NoMemory {
    ghost use Rattle.std.specs.Prelude.{◌≡◌};

    ghost from_gives = { λ _ e. e ≡ record {} };

    fn from(_error: AllocFailed<T>) -> NoMemory {
        NoMemory
    }
}

impl From<yd_ids::NoMemory> for NoMemory {
    ghost use Rattle.std.specs.Prelude.{◌≡◌};

    ghost from_gives = { λ _ e. e ≡ record {} };

    fn from(_error: yd_ids::NoMemory) -> NoMemory {
        NoMemory
    }
}

impl From<yd_ops::NoMemory> for NoMemory {
    ghost use Rattle.std.specs.Prelude.{◌≡◌};

    ghost from_gives = { λ _ e. e ≡ record {} };

    fn from(_error: yd_ops::NoMemory) -> NoMemory {
        NoMemory
    }
}

impl From<NoMemory> for EditFault {
    ghost use Rattle.std.specs.Prelude.{◌≡◌};
    ghost use Rattle.yd_making.specs.declared.fault.EditFault.TheVariants.{NoMemory as NoRoom};

    ghost from_gives = { λ _ e. e ≡ NoRoom };

    fn from(_error: NoMemory) -> EditFault {
        EditFault::NoMemory
    }
}

impl From<yd_ids::NoMemory> for EditFault {
    ghost use Rattle.std.specs.Prelude.{◌≡◌};
    ghost use Rattle.yd_making.specs.declared.fault.EditFault.TheVariants.{NoMemory as NoRoom};

    ghost from_gives = { λ _ e. e ≡ NoRoom };

    fn from(_error: yd_ids::NoMemory) -> EditFault {
        EditFault::NoMemory
    }
}

impl From<yd_ops::NoMemory> for EditFault {
    ghost use Rattle.std.specs.Prelude.{◌≡◌};
    ghost use Rattle.yd_making.specs.declared.fault.EditFault.TheVariants.{NoMemory as NoRoom};

    ghost from_gives = { λ _ e. e ≡ NoRoom };

    fn from(_error: yd_ops::NoMemory) -> EditFault {
        EditFault::NoMemory
    }
}

impl From<yd_state::NoMemory> for EditFault {
    ghost use Rattle.std.specs.Prelude.{◌≡◌};
    ghost use Rattle.yd_making.specs.declared.fault.EditFault.TheVariants.{NoMemory as NoRoom};

    ghost from_gives = { λ _ e. e ≡ NoRoom };

    fn from(_error: yd_state::NoMemory) -> EditFault {
        EditFault::NoMemory
    }
}
