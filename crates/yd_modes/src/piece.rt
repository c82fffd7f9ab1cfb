//! Pieces of a delta.

use yd_value::{Shown, ShownFields};

/// Text or one value, with its attributes.
#[derive(Drop)]
pub struct Piece {
    /// The text or the value.
    pub insert: Shown,
    /// Its attributes, in the order of their keys' bytes.
    pub attributes: ShownFields,
}
