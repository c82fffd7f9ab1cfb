//! What an edit is made on.

use yd_ids::Client;
use yd_state::State;

/// What an edit is made on: a state, and the client whose edit it is. Contracts see of it what an
/// edit reads (`basis_of_given`).
#[derive(Clone, Copy)]
pub struct Basis<'a> {
    /// The state.
    pub state: &'a State,
    /// The client.
    pub client: Client,
}
