//! Why a call of the outside did not do its work.

use std::alloc::AllocFailed;

/// A call of the outside failed, and its object's count of faults rose.
#[derive(Clone, Copy, Debug, PartialEq, Eq)]
pub struct Failed;

/// A growth found no memory. It is no fault, and raises no count.
#[derive(Clone, Copy, Debug, PartialEq, Eq)]
pub struct NoMemory;

/// Why a sink or a board did not do its work.
#[derive(Clone, Copy, Debug, PartialEq, Eq)]
pub enum Outage {
    /// A growth found no memory, and no count rose.
    NoMemory,
    /// The call failed, and the object's count of faults rose.
    Failed,
}

impl<T: Drop> From<AllocFailed<T>> for NoMemory {
    fn from(_: AllocFailed<T>) -> NoMemory {
        NoMemory
    }
}
