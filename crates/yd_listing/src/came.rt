//! Units that became held.

use yd_ids::Span;

/// Units that became held in a row, and where they went.
#[derive(Clone, Copy)]
pub struct Came {
    /// Which units.
    pub span: Span,
    /// The number of their list, and none where they are lost.
    pub list: Option<usize>,
}
