//! What is wrong with a file of cases.

use std::alloc::{AllocError, AllocFailed};
use thiserror::Error;

/// What is wrong with a line, or with the case that ends there.
#[derive(Debug, Drop, Error)]
pub enum Slip {
    /// The word that the line begins with says nothing here.
    #[error("the line begins with no word that is known here")]
    UnknownWord,
    /// A name is missing, or stands twice.
    #[error("a case or a file has no name, or the name of another")]
    BadName,
    /// Bytes are not spelled as bytes.
    #[error("these are not bytes in pairs of hexadecimal digits")]
    BadBytes,
    /// A number is none, too large, 0 where it may not be, or given twice.
    #[error("this is not a number in its range")]
    BadNumber,
    /// Words have no space or several between them.
    #[error("words are parted by one space")]
    BadWords,
    /// A run has to be begun before this line.
    #[error("this stands behind a line `words`")]
    NoWords,
    /// No file stands above with this name.
    #[error("no file before this line has the name")]
    NoFile,
    /// The wanted status is missing, stands twice, or is past 255.
    #[error("one status is wanted")]
    BadStatus,
    /// So many words have too many orders.
    #[error("at most six files come in every order")]
    TooManyFiles,
    /// Places of fronts are out of order or past the file, or stand twice.
    #[error("places of fronts begin at 0, ascend, and are below the file's length")]
    BadPlaces,
    /// A line `err-at` has no fronts, or stands twice.
    #[error("one line `err-at` stands behind a line `fronts`")]
    NoFronts,
    /// The file begins no case.
    #[error("the file has no case")]
    NoCase,
    /// No memory was there.
    #[error("no memory")]
    NoMemory,
}

/// A slip, and the line that has it.
#[derive(Debug, Drop, Error)]
#[error("line {line}: {slip}")]
pub struct Fault {
    /// The line, from 1 on.
    pub line: u64,
    /// What is wrong there.
    pub slip: Slip,
}

impl From<AllocError> for Slip {
    fn from(_refused: AllocError) -> Slip {
        Slip::NoMemory
    }
}

impl<T: Drop> From<AllocFailed<T>> for Slip {
    fn from(_refused: AllocFailed<T>) -> Slip {
        Slip::NoMemory
    }
}

impl From<yd_world::NoMemory> for Slip {
    fn from(_refused: yd_world::NoMemory) -> Slip {
        Slip::NoMemory
    }
}

impl From<yd_app::NoMemory> for Slip {
    fn from(_refused: yd_app::NoMemory) -> Slip {
        Slip::NoMemory
    }
}
