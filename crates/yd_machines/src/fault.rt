//! Why a step is not carried out.

use std::alloc::{AllocError, AllocFailed};
use yd_sync::MessageFault;

/// A growth found no memory.
#[derive(Clone, Copy, Debug, PartialEq, Eq)]
pub struct NoMemory;

/// Why a peer refuses an event.
#[derive(Clone, Copy, Debug, PartialEq, Eq)]
pub enum PeerFault {
    /// A growth found no memory.
    NoMemory,
    /// The bytes are no message.
    Bad(MessageFault),
    /// The own state would have to be set, and the own clock is 2^53-1.
    ClockFull,
}

impl From<NoMemory> for PeerFault {
    ghost use Rattle.std.specs.Prelude.{◌≡◌};
    ghost use Rattle.yd_machines.specs.declared.fault.PeerFault.TheVariants.{NoMemory as NoRoom};

    ghost from_gives = { λ _ e. e ≡ NoRoom };

    fn from(_refused: NoMemory) -> PeerFault {
        PeerFault::NoMemory
    }
}

impl From<yd_sync::NoMemory> for PeerFault {
    ghost use Rattle.std.specs.Prelude.{◌≡◌};
    ghost use Rattle.yd_machines.specs.declared.fault.PeerFault.TheVariants.{NoMemory as NoRoom};

    ghost from_gives = { λ _ e. e ≡ NoRoom };

    fn from(_refused: yd_sync::NoMemory) -> PeerFault {
        PeerFault::NoMemory
    }
}

impl From<yd_doc::NoMemory> for NoMemory {
    ghost use Rattle.std.specs.Prelude.{⊤};

    ghost from_gives = { λ _ _. ⊤ };

    fn from(_refused: yd_doc::NoMemory) -> NoMemory {
        NoMemory
    }
}

impl From<yd_any::NoMemory> for NoMemory {
    ghost use Rattle.std.specs.Prelude.{⊤};

    ghost from_gives = { λ _ _. ⊤ };

    fn from(_refused: yd_any::NoMemory) -> NoMemory {
        NoMemory
    }
}

impl From<yd_ids::NoMemory> for NoMemory {
    ghost use Rattle.std.specs.Prelude.{⊤};

    ghost from_gives = { λ _ _. ⊤ };

    fn from(_refused: yd_ids::NoMemory) -> NoMemory {
        NoMemory
    }
}

impl From<yd_hub::NoMemory> for NoMemory {
    ghost use Rattle.std.specs.Prelude.{⊤};

    ghost from_gives = { λ _ _. ⊤ };

    fn from(_refused: yd_hub::NoMemory) -> NoMemory {
        NoMemory
    }
}

impl From<yd_ops::NoMemory> for NoMemory {
    ghost use Rattle.std.specs.Prelude.{⊤};

    ghost from_gives = { λ _ _. ⊤ };

    fn from(_refused: yd_ops::NoMemory) -> NoMemory {
        NoMemory
    }
}

impl From<yd_sync::NoMemory> for NoMemory {
    ghost use Rattle.std.specs.Prelude.{⊤};

    ghost from_gives = { λ _ _. ⊤ };

    fn from(_refused: yd_sync::NoMemory) -> NoMemory {
        NoMemory
    }
}

impl From<AllocError> for NoMemory {
    ghost use Rattle.std.specs.Prelude.{⊤};

    ghost from_gives = { λ _ _. ⊤ };

    fn from(_refused: AllocError) -> NoMemory {
        NoMemory
    }
}

impl<T: Drop> From<AllocFailed<T>> for NoMemory {
    ghost use Rattle.std.specs.Prelude.{⊤};

    ghost from_gives = { λ _ _. ⊤ };

    fn from(_refused: AllocFailed<T>) -> NoMemory {
        NoMemory
    }
}
