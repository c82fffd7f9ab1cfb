//! What a table has of one client.

use yd_any::Text;

/// What is known of a client: its clock and state, when they were taken or set, and from whom.
#[derive(Drop)]
pub struct Seat {
    /// The client's clock, below 2^53.
    pub clock: u64,
    /// Its state, where it has one.
    pub state: Option<Text>,
    /// When clock and state were taken or set, in milliseconds.
    pub moment: u64,
    /// The number of the session that they came from.
    pub source: u64,
}
