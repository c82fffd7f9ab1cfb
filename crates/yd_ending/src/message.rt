//! The line on err of a message that is refused.

ghost use Rattle.std.specs.Prelude.{◌++◌, OnErr, OnOk, codes};
ghost use Rattle.yd_ending.specs.Message.{message_text, refused_message_line};
ghost use Rattle.yd_ending.specs.Writing.{TakesAll, TakesPart, CountsFault};

use crate::refusal::tell_fault;
use crate::script::tell_number;
use crate::writing::write_line;
use itoa::Buffer;
use yd_sync::MessageFault;
use yd_world::{Outage, Sink};

/// Writes that the message that came with this number is refused.
pub fn tell_message<S: Sink>(err: &mut S, number: u64, fault: MessageFault) -> Result<(), Outage>
    ensures whole { OnOk result (TakesAll (S.bytes_taken err.old) (S.bytes_taken err.new)
        (refused_message_line number fault)) }
    ensures part { OnErr result (TakesPart (S.bytes_taken err.old) (S.bytes_taken err.new)
        (refused_message_line number fault)) }
    ensures cause { CountsFault (S.faults err.old) (S.faults err.new) result }
{
    let mut digits = Buffer::new();
    write_line(err, "refused message ", digits.format(number), " ")?;
    tell_why(err, fault)
}

// Writes why a message is refused, and a line feed.
fn tell_why<S: Sink>(err: &mut S, fault: MessageFault) -> Result<(), Outage>
    ensures whole { OnOk result (TakesAll (S.bytes_taken err.old) (S.bytes_taken err.new)
        (message_text fault ++ codes "\n")) }
    ensures part { OnErr result (TakesPart (S.bytes_taken err.old) (S.bytes_taken err.new)
        (message_text fault ++ codes "\n")) }
    ensures cause { CountsFault (S.faults err.old) (S.faults err.new) result }
{
    match fault {
        MessageFault::ShortInput(at) => tell_number(err, "ShortInput", at as u64),
        MessageFault::NumberTooLarge(at) => tell_number(err, "NumberTooLarge", at as u64),
        MessageFault::BadMessage(number) => tell_number(err, "BadMessage", number),
        MessageFault::Trailing(at) => tell_number(err, "Trailing", at as u64),
        MessageFault::Inner(cause, spot) => tell_fault(err, cause, spot),
    }
}
