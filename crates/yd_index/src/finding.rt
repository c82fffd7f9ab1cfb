//! The index as the scan asks it: which run has a unit.

ghost use Rattle.yd_index.specs.Holding.{places_of};

use crate::index::Index;
use yd_ids::Id;
use yd_scan::Finds;

impl Finds for Index {
    ghost places = { λ s id. places_of s id };

    fn find(&self, id: Id) -> Option<usize> {
        match self.entry(id) {
            Some(entry) => Some(entry.place),
            None => None,
        }
    }
}
