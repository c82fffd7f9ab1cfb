//! Why bytes are no position; and that there was no memory.

use yd_num::NumFault;

/// A growth found no memory.
#[derive(Clone, Copy, Debug, PartialEq, Eq)]
pub struct NoMemory;

/// Why a position could not be read: no memory, or the first deviation of the bytes (the names are
/// own). Places count from the first byte.
#[derive(Clone, Copy, Debug, PartialEq, Eq)]
pub enum PositionFault {
    /// A growth found no memory.
    NoMemory,
    /// A number or a text cannot be read.
    Number(NumFault),
    /// The first number is none of 0, 1 and 2. It begins at this place, which is 0.
    BadForm(usize),
    /// Bytes follow the position from this place on.
    Trailing(usize),
}

impl From<yd_num::NoMemory> for NoMemory {
    ghost use Rattle.std.specs.Prelude.{◌≡◌};

    ghost from_gives = { λ _ e. e ≡ record {} };

    fn from(_refused: yd_num::NoMemory) -> NoMemory {
        NoMemory
    }
}

impl From<yd_any::NoMemory> for PositionFault {
    ghost use Rattle.std.specs.Prelude.{◌≡◌};
    ghost use Rattle.yd_position.specs.declared.fault.PositionFault.TheVariants.{NoMemory as NoRoom};

    ghost from_gives = { λ _ e. e ≡ NoRoom };

    fn from(_refused: yd_any::NoMemory) -> PositionFault {
        PositionFault::NoMemory
    }
}
