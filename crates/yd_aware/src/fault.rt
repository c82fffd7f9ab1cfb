//! Why the own state is not set.

/// Why the own state is not set.
#[derive(Clone, Copy, Debug, PartialEq, Eq)]
pub enum AwareFault {
    /// A growth found no memory.
    NoMemory,
    /// The own clock is 2^53-1 already.
    ClockFull,
}
