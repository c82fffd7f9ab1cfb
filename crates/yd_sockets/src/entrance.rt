//! The server's side: connections come in, and make their handshakes.

ghost use Rattle.std.specs.Prelude.{◌≡◌, [], IfOk, IfErr};
ghost use Rattle.std.specs.VecDeque.{deque_items};
ghost use Rattle.yd_world.specs.declared.fault.Outage.TheVariants.{Failed};
ghost use Rattle.yd_sockets.specs.Doors.{EntersNew};

use std::alloc::Global;
use std::collections::VecDeque;
use std::net::{Net, OpenListener, OpenStream, SocketAddr, SocketAddrV4, TcpListener};
use std::random::RandomSource;
use std::time::{Clock, Instant};
use tungstenite::handshake::server::start;
use tungstenite::{
    HandshakeError, MidHandshake, NoCallback, RandomKeys, Role, ServerHandshake, WebSocket,
};
use yd_lines::line::{is_no_memory, limits};
use yd_lines::{Link, Stream, Wire};
use yd_world::{NoMemory, Outage};

/// How long a handshake may take, in seconds.
const MOST_SECONDS: u64 = 10;

/// How many handshakes may be under way. One more, and the oldest is dropped.
const MOST_ARRIVING: usize = 256;

/// What was seen where connections come in.
#[derive(Drop)]
pub enum Seen<L, K> {
    /// Nobody came.
    Nobody,
    /// Somebody came or went, and no connection stands by it.
    Somebody,
    /// A connection stands.
    Entered(WebSocket<Stream<L>, K>),
}

/// A connection whose handshake is under way.
#[derive(Drop)]
struct Arriving<L: Link + Drop> {
    handshake: MidHandshake<ServerHandshake<Stream<L>, NoCallback>>,
    since: Instant,
}

/// A listener, and connections whose handshakes are under way. None of them is waited for.
#[derive(Drop)]
pub struct Entrance<R: Net> {
    listener: R::Listener,
    arriving: VecDeque<Arriving<Wire<R::Stream>>>,
}

impl<R: Net + Clock + RandomSource + Copy> Entrance<R> {
    /// Listens at the address.
    pub fn open(alloc: Global, outside: &R, address: SocketAddrV4) -> Result<Entrance<R>, Outage>
        ensures empty { IfOk result (λ entrance. deque_items entrance.arriving ≡ []) }
        ensures failed { IfErr result (λ outage. outage ≡ Failed) }
    {
        let Ok(listener) = TcpListener::bind(outside, SocketAddr::V4(address)) else {
            return Err(Outage::Failed);
        };
        if listener.set_nonblocking(true).is_err() {
            return Err(Outage::Failed);
        }
        Ok(Entrance {
            listener,
            arriving: VecDeque::new(alloc),
        })
    }

    /// Lets one connection in that came, and goes on with each handshake.
    pub fn look(
        &mut self,
        alloc: Global,
        outside: &R,
    ) -> Result<Seen<Wire<R::Stream>, RandomKeys<R>>, NoMemory>
        ensures { IfOk result EntersNew }
    {
        let has_come = self.let_in(alloc, outside)?;
        for _ in 0..self.arriving.len() {
            if let Some(arriving) = self.arriving.pop_front() {
                match self.go_on(alloc, outside, arriving)? {
                    Seen::Nobody => {}
                    seen => return Ok(seen),
                }
            }
        }
        Ok(if has_come {
            Seen::Somebody
        } else {
            Seen::Nobody
        })
    }

    // Lets one connection in, if one came.
    fn let_in(&mut self, alloc: Global, outside: &R) -> Result<bool, NoMemory> {
        let Ok((stream, _)) = self.listener.accept() else {
            return Ok(false);
        };
        if stream.set_nonblocking(true).is_err() || stream.set_nodelay(true).is_err() {
            return Ok(true);
        }
        let Ok(since) = Instant::now(outside) else {
            return Ok(true);
        };
        if self.arriving.len() >= MOST_ARRIVING {
            self.arriving.pop_front();
        }
        let handshake = start(
            alloc,
            Stream::new(alloc, Wire(stream)),
            NoCallback,
            Some(limits()),
        );
        match self.arriving.push_back(Arriving { handshake, since }) {
            Ok(()) => Ok(true),
            Err(_) => Err(NoMemory),
        }
    }

    // Goes on with a handshake as far as it comes now.
    fn go_on(
        &mut self,
        alloc: Global,
        outside: &R,
        arriving: Arriving<Wire<R::Stream>>,
    ) -> Result<Seen<Wire<R::Stream>, RandomKeys<R>>, NoMemory>
        ensures { IfOk result EntersNew }
    {
        let since = arriving.since;
        match arriving.handshake.handshake() {
            Ok(line) => {
                let keys = RandomKeys::new(*outside);
                let stream = line.into_inner();
                let line = WebSocket::from_raw_socket(
                    alloc,
                    stream,
                    keys,
                    Role::Server,
                    Some(limits()),
                );
                Ok(Seen::Entered(line))
            }
            Err(HandshakeError::Failure(error)) => {
                if is_no_memory(&error) {
                    Err(NoMemory)
                } else {
                    Ok(Seen::Somebody)
                }
            }
            Err(HandshakeError::Interrupted(handshake)) => {
                if is_late(outside, since) {
                    return Ok(Seen::Somebody);
                }
                match self.arriving.push_back(Arriving { handshake, since }) {
                    Ok(()) => Ok(Seen::Nobody),
                    Err(_) => Err(NoMemory),
                }
            }
        }
    }
}

// Whether a handshake has taken too long.
fn is_late<C: Clock>(clock: &C, since: Instant) -> bool {
    match since.elapsed(clock) {
        Ok(elapsed) => elapsed.as_secs() >= MOST_SECONDS,
        Err(_) => true,
    }
}
