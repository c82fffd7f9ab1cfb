//! Why bytes are refused, and where; and that there was no memory.

use std::alloc::{AllocError, AllocFailed};

/// What is wrong first, in reading order. Those behind `BadParent` come in
/// update format V2 alone.
#[derive(Clone, Copy, Debug, PartialEq, Eq)]
pub enum Cause {
    /// A field passes the end of its bytes.
    ShortInput,
    /// A number is out of its range.
    NumberTooLarge,
    /// A text is not UTF-8.
    BadUtf8,
    /// A struct's kind is past 10.
    BadInfo,
    /// A struct is a subdocument, which is left out.
    Subdocument,
    /// A type's number is past 6.
    BadType,
    /// An any-value has a tag that lib0 does not have.
    BadTag,
    /// A list or object opens inside 100 others.
    TooDeep,
    /// A text is no JSON.
    BadJson,
    /// A JSON value holds a number or a value that is not carried.
    NumberNotCarried,
    /// A struct has no units.
    EmptyStruct,
    /// A struct or a range of deletions ends past 2^53-1.
    ClockTooLarge,
    /// Bytes follow the last field.
    Trailing,
    /// A parent's flag is neither 0 nor 1.
    BadParent,
    /// The first number of V2 is not 0.
    BadFlag,
    /// A string's length cuts a pair.
    HalfPair,
    /// A column has values left.
    ColumnLeft,
    /// More structs are declared than are read.
    TooManyStructs,
}

/// The bytes in which a place counts: those of the whole input, or of a column of V2.
#[derive(Clone, Copy, Debug, PartialEq, Eq)]
pub enum Column {
    /// The whole input.
    Whole,
    /// V2's flag and lengths of columns.
    Head,
    /// Numbers of keys.
    Keys,
    /// Clients.
    Clients,
    /// Clocks of left origins.
    Lefts,
    /// Clocks of right origins.
    Rights,
    /// Info bytes.
    Infos,
    /// Strings.
    Strings,
    /// Flags of parents.
    Parents,
    /// Numbers of types.
    Kinds,
    /// Lengths.
    Lengths,
    /// All else.
    Rest,
}

/// Where a fault is.
#[derive(Clone, Copy, Debug, PartialEq, Eq)]
pub struct Spot {
    /// The bytes in which the place counts.
    pub column: Column,
    /// How many bytes stand before.
    pub at: u64,
}

/// Why bytes could not be read.
#[derive(Clone, Copy, Debug, PartialEq, Eq)]
pub enum ReadError {
    /// A growth found no memory.
    NoMemory,
    /// The bytes are outside the grammar.
    Fault {
        /// What is wrong first.
        cause: Cause,
        /// Where.
        spot: Spot,
    },
}

/// A growth found no memory.
#[derive(Clone, Copy, Debug, PartialEq, Eq)]
pub struct NoMemory;

impl From<AllocError> for NoMemory {
    ghost use Rattle.std.specs.Prelude.{⊤};

    ghost from_gives = { λ _ _. ⊤ };

    fn from(_refused: AllocError) -> NoMemory {
        NoMemory
    }
}

impl<T: Drop> From<AllocFailed<T>> for NoMemory {
    ghost use Rattle.std.specs.Prelude.{⊤};

    ghost from_gives = { λ _ _. ⊤ };

    fn from(_refused: AllocFailed<T>) -> NoMemory {
        NoMemory
    }
}

impl From<yd_num::NoMemory> for NoMemory {
    ghost use Rattle.std.specs.Prelude.{⊤};

    ghost from_gives = { λ _ _. ⊤ };

    fn from(_refused: yd_num::NoMemory) -> NoMemory {
        NoMemory
    }
}

impl From<yd_any::NoMemory> for NoMemory {
    ghost use Rattle.std.specs.Prelude.{⊤};

    ghost from_gives = { λ _ _. ⊤ };

    fn from(_refused: yd_any::NoMemory) -> NoMemory {
        NoMemory
    }
}

impl From<yd_units::NoMemory> for NoMemory {
    ghost use Rattle.std.specs.Prelude.{⊤};

    ghost from_gives = { λ _ _. ⊤ };

    fn from(_refused: yd_units::NoMemory) -> NoMemory {
        NoMemory
    }
}

impl From<NoMemory> for ReadError {
    ghost use Rattle.std.specs.Prelude.{◌≡◌};
    ghost use Rattle.yd_parts.specs.declared.fault.ReadError.TheVariants.{NoMemory as NoRoom};

    ghost from_gives = { λ _ e. e ≡ NoRoom };

    fn from(_refused: NoMemory) -> ReadError {
        ReadError::NoMemory
    }
}

impl From<yd_any::NoMemory> for ReadError {
    ghost use Rattle.std.specs.Prelude.{◌≡◌};
    ghost use Rattle.yd_parts.specs.declared.fault.ReadError.TheVariants.{NoMemory as NoRoom};

    ghost from_gives = { λ _ e. e ≡ NoRoom };

    fn from(_refused: yd_any::NoMemory) -> ReadError {
        ReadError::NoMemory
    }
}

impl From<yd_ids::NoMemory> for ReadError {
    ghost use Rattle.std.specs.Prelude.{◌≡◌};
    ghost use Rattle.yd_parts.specs.declared.fault.ReadError.TheVariants.{NoMemory as NoRoom};

    ghost from_gives = { λ _ e. e ≡ NoRoom };

    fn from(_refused: yd_ids::NoMemory) -> ReadError {
        ReadError::NoMemory
    }
}

impl From<yd_ops::NoMemory> for ReadError {
    ghost use Rattle.std.specs.Prelude.{◌≡◌};
    ghost use Rattle.yd_parts.specs.declared.fault.ReadError.TheVariants.{NoMemory as NoRoom};

    ghost from_gives = { λ _ e. e ≡ NoRoom };

    fn from(_refused: yd_ops::NoMemory) -> ReadError {
        ReadError::NoMemory
    }
}

impl From<yd_units::NoMemory> for ReadError {
    ghost use Rattle.std.specs.Prelude.{◌≡◌};
    ghost use Rattle.yd_parts.specs.declared.fault.ReadError.TheVariants.{NoMemory as NoRoom};

    ghost from_gives = { λ _ e. e ≡ NoRoom };

    fn from(_refused: yd_units::NoMemory) -> ReadError {
        ReadError::NoMemory
    }
}

impl<T: Drop> From<AllocFailed<T>> for ReadError {
    ghost use Rattle.std.specs.Prelude.{◌≡◌};
    ghost use Rattle.yd_parts.specs.declared.fault.ReadError.TheVariants.{NoMemory as NoRoom};

    ghost from_gives = { λ _ e. e ≡ NoRoom };

    fn from(_refused: AllocFailed<T>) -> ReadError {
        ReadError::NoMemory
    }
}
