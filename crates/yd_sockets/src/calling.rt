//! The client's side: one connection is made.

ghost use Rattle.std.specs.Prelude.{false, IfOk};
ghost use Rattle.yd_lines.specs.Lines.{IsNewLine};

use std::alloc::{AllocError, Global};
use std::net::{Net, OpenStream, SocketAddr, SocketAddrV4, TcpStream};
use std::random::RandomSource;
use std::time::Duration;
use tungstenite::handshake::client::{request_of, start};
use tungstenite::{Error, HandshakeError, RandomKeys, WebSocket};
use yd_lines::line::{is_no_memory, limits};
use yd_lines::{Stream, Wire};
use yd_world::Outage;

/// How long a server may say nothing, in seconds.
const MOST_SECONDS: u64 = 10;

/// Connects to the address and makes the client's handshake. The connection never blocks then.
pub fn call<R: Net + RandomSource + Copy>(
    alloc: Global,
    outside: &R,
    address: SocketAddrV4,
    text: &str,
) -> Result<WebSocket<Stream<Wire<R::Stream>>, RandomKeys<R>>, Outage>
    ensures { IfOk result (IsNewLine false) }
{
    let time = Duration::from_secs(MOST_SECONDS);
    let Ok(stream) = TcpStream::connect_timeout(outside, &SocketAddr::V4(address), time) else {
        return Err(Outage::Failed);
    };
    if stream.set_read_timeout(Some(time)).is_err() || stream.set_nodelay(true).is_err() {
        return Err(Outage::Failed);
    }
    let line = match shake(alloc, outside, stream, text) {
        Ok(line) => line,
        Err(error) => return Err(outage_of(&error)),
    };
    if line.get_ref().inner().0.set_nonblocking(true).is_err() {
        return Err(Outage::Failed);
    }
    Ok(line)
}

// Makes the handshake on a stream that blocks.
fn shake<R: Net + RandomSource + Copy>(
    alloc: Global,
    outside: &R,
    stream: R::Stream,
    text: &str,
) -> Result<WebSocket<Stream<Wire<R::Stream>>, RandomKeys<R>>, Error>
    ensures { IfOk result (IsNewLine false) }
{
    let mut nonce = [0u8; 16];
    outside.fill_bytes(&mut nonce)?;
    let uri = uri_of(alloc, text)?;
    let request = request_of(alloc, uri.as_str())?;
    let keys = RandomKeys::new(*outside);
    let stream = Stream::new(alloc, Wire(stream));
    let begun = start(alloc, nonce, keys, request, stream, Some(limits()))?;
    match begun.handshake() {
        Ok((line, _)) => Ok(line),
        Err(HandshakeError::Failure(error)) => Err(error),
        Err(HandshakeError::Interrupted(_)) => Err(Error::HandshakeIncomplete),
    }
}

// The address of a server as a URI.
fn uri_of(alloc: Global, text: &str) -> Result<String, AllocError> {
    let mut uri = String::new(alloc);
    uri.push_str("ws://")?;
    uri.push_str(text)?;
    uri.push_str("/")?;
    Ok(uri)
}

// What the failure of a handshake is to a board.
fn outage_of(error: &Error) -> Outage {
    if is_no_memory(error) {
        Outage::NoMemory
    } else {
        Outage::Failed
    }
}
