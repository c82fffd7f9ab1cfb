//! Why a column gives no value, and where.

use thiserror::Error;

/// What is wrong with a column (own; the limits of numbers are own).
#[derive(Clone, Copy, Debug, PartialEq, Eq, Error)]
pub enum ColCause {
    /// No run is left, a run is cut short, or a string's length passes the units that are left.
    #[error("the column ends too early")]
    ShortInput,
    /// A number is longer than 8 bytes, or it or a value is out of the range 0 to 2^53-1.
    #[error("a number is too large")]
    NumberTooLarge,
    /// The joined text is not UTF-8.
    #[error("the text is not UTF-8")]
    BadUtf8,
    /// A string's length parts a pair of units.
    #[error("a length parts a pair")]
    HalfPair,
    /// Values are left that nobody asked for.
    #[error("values are left")]
    ColumnLeft,
}

/// What is wrong, and where: the place of the first byte of the run that should give the value, in
/// bytes from the column's first; the column's length, where no run is left; and 0 for the joined
/// text of strings.
#[derive(Clone, Copy, Debug, PartialEq, Eq, Error)]
#[error("{cause} at {at}")]
pub struct ColFault {
    /// What is wrong.
    pub cause: ColCause,
    /// Where the run begins.
    pub at: usize,
}
