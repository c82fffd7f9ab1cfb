//! Why the program stopped.

ghost use Rattle.std.specs.Prelude.{◌≡◌};
ghost use Rattle.yd_ending.specs.Ending.{stop_of_fault, stop_of_outage};
ghost use Rattle.yd_ending.specs.declared.stop.Stop.TheVariants.{NoMemory as NoRoom};

use crate::refusal::Refusal;
use std::alloc::AllocFailed;
use yd_files::{File, FileFault};
use yd_world::Outage;

/// Why the program stopped before all of its output was written.
#[derive(Clone, Copy)]
pub enum Stop<'a> {
    /// The words are of no form.
    Usage,
    /// An input is outside its grammar.
    Refused(Refusal<'a>),
    /// The library failed at this file.
    ReadFault(File<'a>),
    /// The file has more bytes than a file may have.
    TooLarge(File<'a>),
    /// A growth found no memory.
    NoMemory,
    /// The output could not be written.
    WriteFault,
    /// The network did not start, or told of no event.
    LinkFault,
    /// No step 2 came.
    NoStep2,
}

impl<'a, T: Drop> From<AllocFailed<T>> for Stop<'a> {
    ghost from_gives = { λ _ stop. stop ≡ NoRoom };

    fn from(_refused: AllocFailed<T>) -> Stop<'a> {
        Stop::NoMemory
    }
}

impl<'a> From<FileFault<'a>> for Stop<'a> {
    ghost from_gives = { λ fault stop. stop ≡ stop_of_fault fault };

    fn from(fault: FileFault<'a>) -> Stop<'a> {
        match fault {
            FileFault::Refused { file, cause, spot } => {
                Stop::Refused(Refusal::OfFile { file, cause, spot })
            }
            FileFault::ReadFault(file) => Stop::ReadFault(file),
            FileFault::TooLarge(file) => Stop::TooLarge(file),
            FileFault::NoMemory => Stop::NoMemory,
        }
    }
}

impl<'a> From<Outage> for Stop<'a> {
    ghost from_gives = { λ outage stop. stop ≡ stop_of_outage outage };

    fn from(outage: Outage) -> Stop<'a> {
        match outage {
            Outage::NoMemory => Stop::NoMemory,
            Outage::Failed => Stop::WriteFault,
        }
    }
}
