//! What a position is.

use yd_any::Text;
use yd_ids::Id;

/// What a position points at.
#[derive(Drop)]
pub enum Target {
    /// A unit, by its id.
    Unit(Id),
    /// The list of a root, by its name: its end or its front.
    Root(Text),
    /// The list of a nested type, by the id of its item: its end or its front.
    Item(Id),
}

/// A place in a list that stays where it is while others edit (Yjs 13, a relative position).
#[derive(Drop)]
pub struct Position {
    /// What it points at.
    pub target: Target,
    /// Below 0 it stands behind what comes before it, and else before what comes behind it.
    pub assoc: i64,
}
