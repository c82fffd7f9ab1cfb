//! Units of a content in a row.

use yd_ops::Content;

/// Units of a content in a row, lent.
#[derive(Clone, Copy)]
pub struct Piece<'a> {
    /// The content.
    pub content: &'a Content,
    /// Which unit of it is the first, from 0.
    pub offset: u64,
    /// How many units there are.
    pub len: u64,
}
