//! Why bytes are no message.

use yd_parts::{Cause, NoMemory, Spot};

/// The first deviation of bytes that are no message (the names are own). Places count from the first
/// byte of the message, spots of `Inner` from the first byte of the body.
#[derive(Clone, Copy, Debug, PartialEq, Eq)]
pub enum MessageFault {
    /// The number or the byte string that begins at this place passes the end of the message.
    ShortInput(usize),
    /// The number, or the length, that begins at this place is out of its range.
    NumberTooLarge(usize),
    /// No message begins with this number, or none of the sync messages has it next.
    BadMessage(u64),
    /// Bytes follow the message from this place on.
    Trailing(usize),
    /// The body is no state vector, update or list of entries.
    Inner(Cause, Spot),
}

/// Why a message could not be read.
#[derive(Clone, Copy, Debug, PartialEq, Eq)]
pub enum MessageError {
    /// A growth found no memory.
    NoMemory,
    /// The bytes are no message.
    Fault(MessageFault),
}

impl From<NoMemory> for MessageError {
    ghost use Rattle.std.specs.Prelude.{◌≡◌};
    ghost use Rattle.yd_sync.specs.declared.fault.MessageError.TheVariants.{NoMemory as NoRoom};

    ghost from_gives = { λ _ e. e ≡ NoRoom };

    fn from(_refused: NoMemory) -> MessageError {
        MessageError::NoMemory
    }
}

impl From<yd_any::NoMemory> for MessageError {
    ghost use Rattle.std.specs.Prelude.{◌≡◌};
    ghost use Rattle.yd_sync.specs.declared.fault.MessageError.TheVariants.{NoMemory as NoRoom};

    ghost from_gives = { λ _ e. e ≡ NoRoom };

    fn from(_refused: yd_any::NoMemory) -> MessageError {
        MessageError::NoMemory
    }
}
