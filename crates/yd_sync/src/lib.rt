//! Messages of a shared document, read and written exactly, and what is defined of who is there.
//!
//! A message asks for what one lacks, tells an update, or tells who is there (y-protocols, in the
//! envelope of y-websocket). [`read_message`] answers the one message that bytes stand for, or their
//! first deviation; [`write_message`] answers bytes that stand for the message again. What entries
//! make of a table of who is there is defined, with its laws ([`law`]).
//!
//! ```rust
//! let message = read_message(alloc, &[3])?;
//! assert!(rt; matches!(message, Message::Query));
//! ```
#![tactic(auto)]

mod entry;
mod entry_reading;
mod entry_writing;
mod envelope;
mod fault;
mod kind;
pub mod law;
mod message;
mod reading;
mod seat;
mod writing;

pub use entry::{AwareEntry, AwareList};
pub use fault::{MessageError, MessageFault};
pub use message::Message;
pub use reading::read_message;
pub use seat::Seat;
pub use writing::write_message;
pub use yd_parts::{Cause, Column, NoMemory, Spot};
