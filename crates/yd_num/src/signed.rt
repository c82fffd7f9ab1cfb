//! Signed numbers, whose zero has a sign too.

/// A sign and a size, so that there are two zeros (lib0, writeVarInt). What is read has a size of
/// at most 2^55-1, and what is written may have no more (own).
#[derive(Clone, Copy, Debug, PartialEq, Eq)]
pub struct Signed {
    /// It is below zero, or the negative zero.
    pub negative: bool,
    /// How far it is from zero.
    pub size: u64,
}
