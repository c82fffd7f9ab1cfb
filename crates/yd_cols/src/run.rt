//! Runs of equal values.

/// A value that stands once, and so many times more.
#[derive(Clone, Copy, Debug, PartialEq, Eq)]
pub struct Run<V> {
    pub value: V,
    pub more: u64,
}
