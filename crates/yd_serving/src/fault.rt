//! Why a loop did not come to its end, and that there was no memory.

use std::alloc::{AllocError, AllocFailed};
use yd_sync::MessageFault;
use yd_world::Outage;

/// A growth found no memory.
#[derive(Clone, Copy, Debug, PartialEq, Eq)]
pub struct NoMemory;

impl From<yd_world::NoMemory> for NoMemory {
    ghost use Rattle.std.specs.Prelude.{⊤};

    ghost from_gives = { λ _ _. ⊤ };

    fn from(_refused: yd_world::NoMemory) -> NoMemory {
        NoMemory
    }
}

impl From<yd_sync::NoMemory> for NoMemory {
    ghost use Rattle.std.specs.Prelude.{⊤};

    ghost from_gives = { λ _ _. ⊤ };

    fn from(_refused: yd_sync::NoMemory) -> NoMemory {
        NoMemory
    }
}

impl From<AllocError> for NoMemory {
    ghost use Rattle.std.specs.Prelude.{⊤};

    ghost from_gives = { λ _ _. ⊤ };

    fn from(_refused: AllocError) -> NoMemory {
        NoMemory
    }
}

impl<T: Drop> From<AllocFailed<T>> for NoMemory {
    ghost use Rattle.std.specs.Prelude.{⊤};

    ghost from_gives = { λ _ _. ⊤ };

    fn from(_refused: AllocFailed<T>) -> NoMemory {
        NoMemory
    }
}

impl From<yd_doc::NoMemory> for NoMemory {
    ghost use Rattle.std.specs.Prelude.{⊤};

    ghost from_gives = { λ _ _. ⊤ };

    fn from(_refused: yd_doc::NoMemory) -> NoMemory {
        NoMemory
    }
}

impl From<yd_machines::NoMemory> for NoMemory {
    ghost use Rattle.std.specs.Prelude.{⊤};

    ghost from_gives = { λ _ _. ⊤ };

    fn from(_refused: yd_machines::NoMemory) -> NoMemory {
        NoMemory
    }
}

/// Why a server's loop did not make all its turns.
#[derive(Clone, Copy, Debug, PartialEq, Eq)]
pub enum ServeFault {
    /// A growth found no memory.
    NoMemory,
    /// The network did not start, or told of no event.
    NoLink,
}

impl From<Outage> for ServeFault {
    ghost use Rattle.std.specs.Prelude.{◌≡◌};
    ghost use Rattle.yd_serving.specs.Serving.{serve_fault};

    ghost from_gives = { λ outage fault. fault ≡ serve_fault outage };

    fn from(outage: Outage) -> ServeFault {
        match outage {
            Outage::NoMemory => ServeFault::NoMemory,
            Outage::Failed => ServeFault::NoLink,
        }
    }
}

impl From<NoMemory> for ServeFault {
    ghost use Rattle.std.specs.Prelude.{◌≡◌};
    ghost use Rattle.yd_serving.specs.declared.fault.ServeFault.TheVariants.{NoMemory as NoRoom};

    ghost from_gives = { λ _ fault. fault ≡ NoRoom };

    fn from(_refused: NoMemory) -> ServeFault {
        ServeFault::NoMemory
    }
}

impl From<yd_machines::NoMemory> for ServeFault {
    ghost use Rattle.std.specs.Prelude.{◌≡◌};
    ghost use Rattle.yd_serving.specs.declared.fault.ServeFault.TheVariants.{NoMemory as NoRoom};

    ghost from_gives = { λ _ fault. fault ≡ NoRoom };

    fn from(_refused: yd_machines::NoMemory) -> ServeFault {
        ServeFault::NoMemory
    }
}

/// Why a client's loop did not come to its end.
#[derive(Clone, Copy, Debug, PartialEq, Eq)]
pub enum SyncFault {
    /// A growth found no memory.
    NoMemory,
    /// The network did not start, or told of no event.
    NoLink,
    /// The message that came with this number, counted from 1, is none.
    Refused(u64, MessageFault),
}

impl From<Outage> for SyncFault {
    ghost use Rattle.std.specs.Prelude.{◌≡◌};
    ghost use Rattle.yd_serving.specs.Syncing.{sync_fault};

    ghost from_gives = { λ outage fault. fault ≡ sync_fault outage };

    fn from(outage: Outage) -> SyncFault {
        match outage {
            Outage::NoMemory => SyncFault::NoMemory,
            Outage::Failed => SyncFault::NoLink,
        }
    }
}

impl From<NoMemory> for SyncFault {
    ghost use Rattle.std.specs.Prelude.{◌≡◌};
    ghost use Rattle.yd_serving.specs.declared.fault.SyncFault.TheVariants.{NoMemory as NoRoom};

    ghost from_gives = { λ _ fault. fault ≡ NoRoom };

    fn from(_refused: NoMemory) -> SyncFault {
        SyncFault::NoMemory
    }
}

impl From<yd_machines::NoMemory> for SyncFault {
    ghost use Rattle.std.specs.Prelude.{◌≡◌};
    ghost use Rattle.yd_serving.specs.declared.fault.SyncFault.TheVariants.{NoMemory as NoRoom};

    ghost from_gives = { λ _ fault. fault ≡ NoRoom };

    fn from(_refused: yd_machines::NoMemory) -> SyncFault {
        SyncFault::NoMemory
    }
}
