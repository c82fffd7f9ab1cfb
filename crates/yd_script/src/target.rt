//! Where a line's change is made.

use yd_any::Text;

/// A root, and the steps that lead on from it, each to a type.
#[derive(Drop)]
pub struct Target {
    /// The root's name.
    pub root: Text,
    /// The steps.
    pub steps: Vec<TargetStep>,
}

/// A step from a root or a type to a type in it.
#[derive(Drop)]
pub enum TargetStep {
    /// To the live counted unit with this index in the list.
    Index(u64),
    /// To what stands under this key of the map.
    Key(Text),
}
