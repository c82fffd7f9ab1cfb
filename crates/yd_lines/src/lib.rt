//! One connection: bytes over a link, and messages as frames of WebSocket.
//!
//! A [`Stream`] writes on where its [`Link`] would block, and keeps what comes meanwhile: at most
//! 67,108,864 bytes, which later reads give first. After a write that failed no later one goes. In
//! [`line`] a message that is handed on is one that the frames spell which came, and one that was
//! sent went whole, as one frame, behind what waited. This holds over every link; of a connection
//! of the system ([`Wire`]) nothing is told.
//!
//! ```rust
//! let stream = Stream::new(alloc, Wire(connection));
//! let limits = Some(line::limits());
//! let mut socket = WebSocket::from_raw_socket(alloc, stream, keys, Role::Server, limits);
//! line::send(alloc, &mut socket, b"abc")?;
//! let given = line::take(alloc, &mut socket)?;
//! ```
#![tactic(auto)]

mod held;
pub mod line;
mod link;
mod stream;

pub use link::{Link, Wire};
pub use stream::Stream;
