//! Why a script is not played to its end.

ghost use Rattle.std.specs.Prelude.{◌≡◌};
ghost use Rattle.yd_playing.specs.Stopped.{refused_by};
ghost use Rattle.yd_causes.specs.declared.cause.LineCause.TheVariants.{NoTarget as LeadsNowhere, NoMark as HasNoMark};
ghost use Rattle.yd_playing.specs.declared.fault.PlayFault.TheVariants.{NoMemory as NoRoom, Refused as IsRefused};

use std::alloc::AllocFailed;
use yd_causes::LineCause;
use yd_making::EditFault;

/// Why a script was not played to its end.
#[derive(Clone, Copy, Debug, PartialEq, Eq)]
pub enum PlayFault {
    /// A growth found no memory.
    NoMemory,
    /// The line with this number, from 1, is refused.
    Refused { number: u64, cause: LineCause },
}

/// The edit of the line with a number is refused, or no memory was there for it.
pub(crate) fn refused(number: u64, fault: EditFault) -> PlayFault
    ensures { result ≡ refused_by number fault }
{
    match fault {
        EditFault::NoMemory => PlayFault::NoMemory,
        _ => PlayFault::Refused {
            number,
            cause: LineCause::Edit(fault),
        },
    }
}

/// A step of the target of the line with a number leads to no live type.
pub(crate) fn no_target(number: u64, step: u64) -> PlayFault
    ensures { result ≡ IsRefused number (LeadsNowhere step) }
{
    PlayFault::Refused {
        number,
        cause: LineCause::NoTarget(step),
    }
}

/// No place is kept under the name of the line with a number.
pub(crate) fn no_mark(number: u64) -> PlayFault
    ensures { result ≡ IsRefused number HasNoMark }
{
    PlayFault::Refused {
        number,
        cause: LineCause::NoMark,
    }
}

impl From<yd_parts::NoMemory> for PlayFault {
    ghost from_gives = { λ _ fault. fault ≡ NoRoom };

    fn from(_error: yd_parts::NoMemory) -> PlayFault {
        PlayFault::NoMemory
    }
}

impl From<yd_making::NoMemory> for PlayFault {
    ghost from_gives = { λ _ fault. fault ≡ NoRoom };

    fn from(_error: yd_making::NoMemory) -> PlayFault {
        PlayFault::NoMemory
    }
}

impl<T: Drop> From<AllocFailed<T>> for PlayFault {
    ghost from_gives = { λ _ fault. fault ≡ NoRoom };

    fn from(_error: AllocFailed<T>) -> PlayFault {
        PlayFault::NoMemory
    }
}
