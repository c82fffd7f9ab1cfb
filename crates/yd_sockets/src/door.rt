//! Where connections come from: a listener, a call, or nothing.

ghost use Rattle.std.specs.Prelude.{◌≡◌, IfOk};
ghost use Rattle.yd_sockets.specs.Doors.{IsDoor, Sees};

use crate::calling::call;
use crate::entrance::{Entrance, Seen};
use std::alloc::Global;
use std::net::{Net, SocketAddrV4};
use std::random::RandomSource;
use std::time::Clock;
use tungstenite::{RandomKeys, WebSocket};
use yd_lines::{Stream, Wire};
use yd_world::{NoMemory, Outage, Way};

/// Where connections come from.
#[derive(Drop)]
pub enum Door<R: Net> {
    /// No connection comes, or none any more.
    Shut,
    /// Connections come in.
    Open(Entrance<R>),
    /// One connection was made.
    Called(WebSocket<Stream<Wire<R::Stream>>, RandomKeys<R>>),
}

impl<R: Net + Clock + RandomSource + Copy> Door<R> {
    /// The door at an address, on this side of it.
    pub fn open(
        alloc: Global,
        outside: &R,
        address: SocketAddrV4,
        text: &str,
        way: Way,
    ) -> Result<Door<R>, Outage>
        ensures { IfOk result (IsDoor way) }
    {
        match way {
            Way::Listen => {
                let entrance = Entrance::open(alloc, outside, address)?;
                Ok(Door::Open(entrance))
            }
            Way::Call => {
                let line = call(alloc, outside, address, text)?;
                Ok(Door::Called(line))
            }
        }
    }

    /// What is seen at the door now.
    pub fn look(
        &mut self,
        alloc: Global,
        outside: &R,
    ) -> Result<Seen<Wire<R::Stream>, RandomKeys<R>>, NoMemory>
        ensures { IfOk result (Sees self.old self.new) }
    {
        match self {
            Door::Shut => Ok(Seen::Nobody),
            Door::Open(entrance) => entrance.look(alloc, outside),
            Door::Called(_) => match self.shut() {
                Door::Called(line) => Ok(Seen::Entered(line)),
                _ => Ok(Seen::Nobody),
            },
        }
    }

    // Shuts the door, and gives what it was.
    fn shut(&mut self) -> Door<R>
        ensures shut { self.new ≡ Door.Shut }
        ensures was { result ≡ self.old }
    {
        std::mem::replace(self, Door::Shut)
    }
}
