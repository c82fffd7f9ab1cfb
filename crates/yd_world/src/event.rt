//! What happens on the network, and when.

use crate::blob::Blob8;

/// The number of a connection.
#[derive(Clone, Copy, Debug, PartialEq, Eq)]
pub struct Session(pub u64);

/// What happened.
#[derive(Debug, Drop)]
pub enum What {
    /// A connection stands.
    Opened(Session),
    /// A message came whole.
    Received(Session, Blob8),
    /// A connection ended.
    Closed(Session),
    /// Nothing came for a while.
    Idle,
}

/// What happened, and at which moment, in milliseconds.
#[derive(Debug, Drop)]
pub struct Event {
    pub now: u64,
    pub what: What,
}
