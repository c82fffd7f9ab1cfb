//! How much waits.

/// How many units and how many deletions were received that are not held yet.
#[derive(Clone, Copy, Debug, PartialEq, Eq)]
pub struct Waiting {
    /// Units that are received and not held.
    pub structs: u128,
    /// Ids that are deleted by name and not held.
    pub deletes: u128,
}
