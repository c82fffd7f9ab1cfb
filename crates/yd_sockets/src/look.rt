//! What one look at the network gave.

use yd_world::What;

/// After so many rounds in which nothing was ready, nothing happened.
pub const STILL_ROUNDS: u32 = 1000;

/// After so many rounds without an event, nothing happened, whatever else came.
pub const MOST_ROUNDS: u32 = 1_000_000;

/// What was seen at the door, or at a session.
#[derive(Drop)]
pub enum Look {
    /// Nothing was ready.
    Still,
    /// Something came that is no event.
    Moved,
    /// This happened.
    Happened(What),
}
