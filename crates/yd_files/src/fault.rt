//! Why a file was not loaded, and why reading files stopped.

ghost use Rattle.std.specs.Prelude.{◌≡◌};
ghost use Rattle.yd_files.specs.declared.fault.FileFault.TheVariants.{NoMemory as NoRoom};
ghost use Rattle.yd_files.specs.declared.fault.LoadFault.TheVariants.{NoMemory as LoadNoMemory, ReadFault as LoadFailed};

use crate::file::File;
use std::alloc::AllocError;
use yd_parts::{Cause, NoMemory, Spot};
use yd_world::Failed;

/// Why a file was not loaded.
#[derive(Clone, Copy, Debug, PartialEq, Eq)]
pub enum LoadFault {
    /// A growth found no memory.
    NoMemory,
    /// The library failed, and its count of faults rose.
    ReadFault,
    /// The file has more than 268,435,456 bytes.
    TooLarge,
}

/// Why reading files stopped, and at which file.
#[derive(Clone, Copy)]
pub enum FileFault<'a> {
    /// The file is outside its grammar: what is wrong first, and where.
    Refused {
        file: File<'a>,
        cause: Cause,
        spot: Spot,
    },
    /// The library failed at this file.
    ReadFault(File<'a>),
    /// The file has more bytes than a file may have.
    TooLarge(File<'a>),
    /// A growth found no memory.
    NoMemory,
}

impl From<AllocError> for LoadFault {
    ghost from_gives = { λ _ e. e ≡ LoadNoMemory };

    fn from(_error: AllocError) -> LoadFault {
        LoadFault::NoMemory
    }
}

impl From<Failed> for LoadFault {
    ghost from_gives = { λ _ e. e ≡ LoadFailed };

    fn from(_error: Failed) -> LoadFault {
        LoadFault::ReadFault
    }
}

impl<'a> From<NoMemory> for FileFault<'a> {
    ghost from_gives = { λ _ e. e ≡ NoRoom };

    fn from(_refused: NoMemory) -> FileFault<'a> {
        FileFault::NoMemory
    }
}
