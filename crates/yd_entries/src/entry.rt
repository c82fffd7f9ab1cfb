//! Units that were taken in a row, and what is told of them.

use crate::place::Place;
use yd_ids::Id;

/// Units in a row that were taken, since their ids had not come before: those of a run, of which
/// they may be a part, or units of which nothing is told but their ids.
#[derive(Clone, Copy)]
pub struct Entry {
    /// The id of the first.
    pub id: Id,
    /// How many units there are.
    pub len: u64,
    /// The left origin of the first. Each later one has the unit before it. Gone ones have none.
    pub left: Option<Id>,
    /// The right origin of each. Gone ones have none.
    pub right: Option<Id>,
    /// Where the run is kept.
    pub run: usize,
    /// Which of the run's units the first is, from 0.
    pub offset: u64,
    /// They are gone: of the run only the client is still told.
    pub is_gone: bool,
    /// Where they stand.
    pub place: Place,
}
