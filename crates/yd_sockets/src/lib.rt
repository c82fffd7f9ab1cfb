//! The network of the system: a board over TCP and WebSocket.
//!
//! A [`SocketBoard`] listens at an address of this machine, or calls one. Each binary message is
//! one event; what else happens on a connection ends its session. It never waits for one peer
//! alone: a peer that says nothing, or reads nothing, is left after some time.
//!
//! ```rust
//! let mut board = SocketBoard::new(rt.alloc(), &rt);
//! board.start("127.0.0.1:1234", Way::Listen)?;
//! let event = board.next()?;
//! ```
#![tactic(auto)]

mod address;
mod calling;
mod counting;
mod door;
mod entrance;
mod look;
mod sessions;
mod socket_board;
mod watch;

pub use address::local_address;
pub use socket_board::SocketBoard;
