//! One connection: what comes on it, and what is sent on it.

ghost use Rattle.std.specs.Prelude.{◌≡◌, ◌<◌, true, false, length, IfOk, OnOk, Some};
ghost use Rattle.std.specs.IoError.{error_kind};
ghost use Rattle.yd_lines.specs.Given.{IsWhatCame};
ghost use Rattle.yd_lines.specs.Lines.{SendsWhole, TellsNoMemory};

use crate::link::Link;
use crate::stream::Stream;
use std::alloc::Global;
use std::io;
use std::io::{ErrorKind, Read, Write};
use tungstenite::{
    CloseCode, CloseFrame, Error, MaskKeys, Message, Utf8Bytes, WebSocket, WebSocketConfig,
};
use yd_world::{Blob8, NoMemory, Outage};

/// How many bytes a message has at most: those of the largest file, and what is before them.
const MOST_BYTES: usize = 268_435_520;

/// How many bytes are asked for at once.
const READ_SIZE: usize = 16_384;

/// What a connection gave.
#[derive(Debug, Drop)]
pub enum Given {
    /// Nothing came.
    Nothing,
    /// Something came, and no message is whole by it.
    Something,
    /// A binary message came whole.
    Message(Blob8),
    /// The connection is over.
    Ended,
}

/// The limits of a connection: a message and a frame have at most 268,435,520 bytes each, and a
/// frame without a mask is against the protocol.
pub fn limits() -> WebSocketConfig
    ensures message { result.max_message_size ≡ Some 268435520 }
    ensures frame { result.max_frame_size ≡ Some 268435520 }
    ensures masked { result.accept_unmasked_frames ≡ false }
{
    WebSocketConfig::default()
        .read_buffer_size(READ_SIZE)
        .max_message_size(Some(MOST_BYTES))
        .max_frame_size(Some(MOST_BYTES))
}

/// Whether a growth found no memory.
pub fn is_no_memory(error: &Error) -> bool
    ensures told { result ≡ true → TellsNoMemory error.now }
    ensures other { TellsNoMemory error.now → result ≡ true }
{
    match error {
        Error::OutOfMemory => true,
        Error::Io(cause) => is_kind_no_memory(cause),
        _ => false,
    }
}

fn is_kind_no_memory(error: &io::Error) -> bool
    ensures told { result ≡ true → error_kind error.now ≡ ErrorKind.OutOfMemory }
    ensures other { error_kind error.now ≡ ErrorKind.OutOfMemory → result ≡ true }
{
    match error.kind() {
        ErrorKind::OutOfMemory => true,
        _ => false,
    }
}

// How a read that gave no message left the connection.
#[derive(Clone, Copy)]
enum Progress {
    /// Nothing came.
    Still,
    /// Some bytes came.
    Moved,
    /// The connection is over.
    Over,
}

/// What came. After a text, or what is against the protocol, the peer is told why it is left. Where
/// there is no memory, a message that came may be lost.
pub fn take<L: Link + Drop, K: MaskKeys + Drop>(
    alloc: Global,
    line: &mut WebSocket<Stream<L>, K>,
) -> Result<Given, NoMemory>
    ensures { IfOk result (IsWhatCame ⟦<Stream<L> as Read>⟧.remaining line.old line.new) }
{
    match line.read() {
        Ok(Message::Binary(bytes)) => {
            let bytes = Blob8::copy_of(alloc, bytes.as_slice())?;
            Ok(Given::Message(bytes))
        }
        Ok(Message::Ping(_)) => Ok(Given::Something),
        Ok(Message::Pong(_)) => Ok(Given::Something),
        Ok(Message::Text(_)) => {
            leave(line, CloseCode::Unsupported);
            Ok(Given::Ended)
        }
        Ok(Message::Close(_)) => {
            let _ = line.flush();
            Ok(Given::Ended)
        }
        Err(error) => match after_error(line, error)? {
            Progress::Still => Ok(Given::Nothing),
            Progress::Moved => Ok(Given::Something),
            Progress::Over => Ok(Given::Ended),
        },
    }
}

// What a read that failed says.
fn after_error<L: Link + Drop, K: MaskKeys + Drop>(
    line: &mut WebSocket<Stream<L>, K>,
    error: Error,
) -> Result<Progress, NoMemory> {
    if is_no_memory(&error) {
        return Err(NoMemory);
    }
    match error {
        Error::Io(cause) => match cause.kind() {
            ErrorKind::WouldBlock => Ok(progress_of(line)),
            _ => Ok(Progress::Over),
        },
        Error::Capacity(_) => {
            leave(line, CloseCode::Size);
            Ok(Progress::Over)
        }
        Error::Protocol(_) => {
            leave(line, CloseCode::Protocol);
            Ok(Progress::Over)
        }
        Error::Utf8 => {
            leave(line, CloseCode::Invalid);
            Ok(Progress::Over)
        }
        _ => Ok(Progress::Over),
    }
}

// Whether some bytes of a message came.
fn progress_of<L: Link + Drop, K: MaskKeys + Drop>(line: &mut WebSocket<Stream<L>, K>) -> Progress {
    if line.get_mut().take_moved() {
        Progress::Moved
    } else {
        Progress::Still
    }
}

// Tells the peer by a code why it is left, if that can be sent.
fn leave<L: Link + Drop, K: MaskKeys + Drop>(line: &mut WebSocket<Stream<L>, K>, code: CloseCode) {
    let frame = CloseFrame {
        code,
        reason: Utf8Bytes::from_static(""),
    };
    let _ = line.close(Some(frame));
}

/// Sends a binary message. A failed send may have sent a part of it, and then no other send goes.
pub fn send<L: Link + Drop, K: MaskKeys + Drop>(
    alloc: Global,
    line: &mut WebSocket<Stream<L>, K>,
    bytes: &[u8],
) -> Result<(), Outage>
    ensures { OnOk result (SendsWhole ⟦<Stream<L> as Write>⟧.contents line.old line.new bytes.now) }
{
    let Ok(message) = Message::binary(alloc, bytes) else {
        return Err(Outage::NoMemory);
    };
    match line.send(message) {
        Ok(()) => Ok(()),
        Err(error) => {
            if is_no_memory(&error) {
                Err(Outage::NoMemory)
            } else {
                Err(Outage::Failed)
            }
        }
    }
}

/// Tells the peer why it is left, if that can be sent. A longer reason than 120 bytes is not told.
pub fn part<L: Link + Drop, K: MaskKeys + Drop>(
    alloc: Global,
    line: &mut WebSocket<Stream<L>, K>,
    reason: &str,
)
    ensures { 120 < length reason.now → line.new ≡ line.old }
{
    if reason.len() > 120 {
        return;
    }
    if let Ok(reason) = Utf8Bytes::copy_from_str(alloc, reason) {
        let code = CloseCode::Policy;
        let _ = line.close(Some(CloseFrame { code, reason }));
    }
}
