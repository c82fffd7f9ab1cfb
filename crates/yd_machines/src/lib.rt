//! Server and client of a shared document, carried out: each event is one step.
//!
//! A [`Hub`] is the server's core, and a [`Peer`] the client's. A step takes one event and answers
//! what is to be done or sent. What it does is defined in `yd_hub`, where the laws over lists of
//! events are too. A step that is refused, or that finds no memory, leaves all as it was.
//!
//! ```rust
//! let mut hub = Hub::new(alloc, replica)?;
//! let actions = hub.step(&event)?;
//! ```
#![tactic(auto)]

mod answering;
mod event;
mod fault;
mod hearing;
mod hub;
mod list;
mod peer;
mod presence;
mod reading;
mod serving;
mod stating;

pub use answering::{is_answering, vector_of};
pub use event::PeerEvent;
pub use fault::{NoMemory, PeerFault};
pub use hub::Hub;
pub use list::MessageList;
pub use peer::Peer;
