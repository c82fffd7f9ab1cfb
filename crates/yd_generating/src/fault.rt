//! Why nothing is generated.

ghost use Rattle.std.specs.Prelude.{◌≡◌};
ghost use Rattle.yd_generating.specs.Stopped.{stopped_by};
ghost use Rattle.yd_generating.specs.declared.fault.GenerateFault.TheVariants.{NoMemory as NoRoom};

use yd_doc::EditFault;

/// Why nothing is generated.
#[derive(Clone, Copy)]
pub enum GenerateFault {
    /// A growth found no memory.
    NoMemory,
    /// An edit is refused: a client has no clock left. It takes 2^53 steps to come there.
    Refused(EditFault),
}

/// An edit is not carried out.
pub(crate) fn stopped(fault: EditFault) -> GenerateFault
    ensures { result ≡ stopped_by fault }
{
    match fault {
        EditFault::NoMemory => GenerateFault::NoMemory,
        _ => GenerateFault::Refused(fault),
    }
}

impl From<yd_doc::NoMemory> for GenerateFault {
    ghost from_gives = { λ _ fault. fault ≡ NoRoom };

    fn from(_error: yd_doc::NoMemory) -> GenerateFault {
        GenerateFault::NoMemory
    }
}

impl From<yd_any::NoMemory> for GenerateFault {
    ghost from_gives = { λ _ fault. fault ≡ NoRoom };

    fn from(_error: yd_any::NoMemory) -> GenerateFault {
        GenerateFault::NoMemory
    }
}

impl From<yd_parts::NoMemory> for GenerateFault {
    ghost from_gives = { λ _ fault. fault ≡ NoRoom };

    fn from(_error: yd_parts::NoMemory) -> GenerateFault {
        GenerateFault::NoMemory
    }
}

impl From<yd_view::NoMemory> for GenerateFault {
    ghost from_gives = { λ _ fault. fault ≡ NoRoom };

    fn from(_error: yd_view::NoMemory) -> GenerateFault {
        GenerateFault::NoMemory
    }
}
