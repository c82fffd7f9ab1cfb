//! What a peer is told.

use yd_any::Text;
use yd_ops::Update;
use yd_world::Blob8;

/// What happens to a peer. Moments are in milliseconds.
#[derive(Drop)]
pub enum PeerEvent {
    /// The connection stands, at this moment.
    Opened(u64),
    /// A message came whole, at this moment.
    Received(Blob8, u64),
    /// Time passed up to this moment.
    Tick(u64),
    /// An edit was made, which this update tells. The update is valid.
    Edited(Update),
    /// The own state is set at this moment. It is not the text `null`.
    State(Option<Text>, u64),
}
