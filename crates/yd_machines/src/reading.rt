//! Bytes that come.

ghost use Rattle.std.specs.Prelude.{IfOk};
ghost use Rattle.yd_sync.specs.Message.{IsValidMessage, message_value};
ghost use Rattle.yd_sync.specs.MessageReading.{MakesMessage, message_reading};

use std::alloc::Global;
use yd_sync::law::messages_are_read;
use yd_sync::{Message, MessageError, read_message};

/// The message that the bytes are, or why they are none.
pub(crate) fn read(alloc: Global, bytes: &[u8]) -> Result<Message, MessageError>
    ensures made { MakesMessage result (message_reading bytes.now) }
    ensures valid { IfOk result (λ message. IsValidMessage (message_value message)) }
{
    messages_are_read();
    let message = read_message(alloc, bytes);
    message
}
