//! What is named, waits and is deleted.

use crate::twin::TwinSet;
use yd_ids::IdSet;

/// The sets of ids of a state.
#[derive(Drop)]
pub struct Sets {
    /// The ids that are deleted by name.
    pub named: TwinSet,
    /// Those of them that are not held.
    pub waiting: IdSet,
    /// The held ids that are deleted.
    pub deletes: TwinSet,
}
