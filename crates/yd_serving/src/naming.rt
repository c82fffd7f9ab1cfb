//! What faults of messages are called.

ghost use Rattle.std.specs.Prelude.{◌≡◌};
ghost use Rattle.yd_serving.specs.Reason.{cause_name, fault_name, reason_of};

use yd_hub::CloseCause;
use yd_sync::{Cause, MessageFault};

/// What the close of a session says.
pub(crate) fn reason(cause: CloseCause) -> &'static str
    ensures { result.now ≡ reason_of cause }
{
    match cause {
        CloseCause::Bad(fault) => name_of_fault(fault),
        CloseCause::TooManySessions => "TooManySessions",
    }
}

/// The name of a message's fault; of a body's it is that of the cause.
pub fn name_of_fault(fault: MessageFault) -> &'static str
    ensures { result.now ≡ fault_name fault }
{
    match fault {
        MessageFault::ShortInput(_) => "ShortInput",
        MessageFault::NumberTooLarge(_) => "NumberTooLarge",
        MessageFault::BadMessage(_) => "BadMessage",
        MessageFault::Trailing(_) => "Trailing",
        MessageFault::Inner(cause, _) => name_of_cause(cause),
    }
}

/// The name of a cause.
pub fn name_of_cause(cause: Cause) -> &'static str
    ensures { result.now ≡ cause_name cause }
{
    match cause {
        Cause::ShortInput => "ShortInput",
        Cause::NumberTooLarge => "NumberTooLarge",
        Cause::BadUtf8 => "BadUtf8",
        Cause::BadInfo => "BadInfo",
        Cause::Subdocument => "Subdocument",
        Cause::BadType => "BadType",
        Cause::BadTag => "BadTag",
        Cause::TooDeep => "TooDeep",
        Cause::BadJson => "BadJson",
        Cause::NumberNotCarried => "NumberNotCarried",
        Cause::EmptyStruct => "EmptyStruct",
        Cause::ClockTooLarge => "ClockTooLarge",
        Cause::Trailing => "Trailing",
        Cause::BadParent => "BadParent",
        Cause::BadFlag => "BadFlag",
        Cause::HalfPair => "HalfPair",
        Cause::ColumnLeft => "ColumnLeft",
        Cause::TooManyStructs => "TooManyStructs",
    }
}
