//! Stretches: the units of a run as the order sees them.

use yd_ids::Id;

/// Units of one client with clocks in a row. Each but the first has the unit before it as its left
/// origin, and all have one right origin. A right origin that is in another list counts as absent,
/// and is not kept here.
#[derive(Clone, Copy, Debug)]
pub struct Stretch {
    /// The id of the first unit.
    pub id: Id,
    /// How many units there are.
    pub len: u64,
    /// The left origin of the first unit.
    pub left: Option<Id>,
    /// The right origin of each unit, where it is in the list.
    pub right: Option<Id>,
}
