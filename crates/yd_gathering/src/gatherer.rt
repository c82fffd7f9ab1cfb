//! What gathers updates.

ghost use Rattle.std.specs.Prelude.{◌≡◌, [], ◌++◌, List, map, IsTrue, IfOk};
ghost use Rattle.yd_words.specs.Each.{Each};
ghost use Rattle.yd_ops.specs.Valid.{IsValidUpdate};
ghost use Rattle.yd_ops.specs.Value.{UpdateValue};
ghost use Rattle.yd_ops.specs.View.{update_value};
ghost use Rattle.yd_gathering.specs.Gathered.{StandsAs};
ghost use Rattle.yd_gathering.specs.Gatherer.{Gathers};

use crate::late::Late;
use crate::row::Row;
use crate::settling::settled;
use std::alloc::Global;
use yd_ops::Update;
use yd_parts::{NoMemory, ReadError};
use yd_v1::{UpdateList, UpdateTaker};

/// Takes updates, and keeps fewer that say the same. They are gathered while they are read, as long
/// as most of them go on where one before them ended. Where many did not, those that follow are put
/// off as bytes, and at the end they are gathered in the order of their ids.
#[derive(Drop)]
pub struct Gatherer {
    alloc: Global,
    // The first of them, which are gathered.
    row: Row,
    // Those behind them, which are put off.
    late: Late,
}

impl Gatherer {
    /// No update was taken.
    pub fn new(alloc: Global) -> Gatherer
        ensures { Gathers result [] }
    {
        Gatherer {
            alloc,
            row: Row::new(alloc),
            late: Late::new(alloc),
        }
    }

    /// Updates that stand for those that were taken: what is received of them is the same (own). It
    /// takes the time of sorting the deletions and what was put off.
    pub fn finish(self) -> Result<UpdateList, NoMemory>
        requires { (taken : List UpdateValue) × Gathers self taken }
        ensures { IfOk result (λ list. (taken : List UpdateValue)
            → Gathers self taken → StandsAs taken (map update_value list)) }
    {
        let Gatherer { alloc, row, late } = self;
        let mut list = row.finish()?;
        if late.is_empty() {
            return Ok(list);
        }
        let behind = settled(alloc, list.as_slice(), &late)?;
        list.append(behind)?;
        Ok(list)
    }

    // The next update is gathered at once, and none before it was put off.
    fn is_in_turn(&self) -> bool
        ensures { IsTrue result → self.now.late.places.items ≡ [] }
    {
        self.late.is_empty() && !self.row.is_scattered()
    }
}

impl UpdateTaker for Gatherer {
    ghost took = { Gathers };

    fn take(&mut self, update: Update) -> Result<(), NoMemory> {
        if self.is_in_turn() {
            self.row.take(update)?;
            return Ok(());
        }
        self.late.put(self.alloc, &update)?;
        Ok(())
    }

    fn take_v1(&mut self, alloc: Global, bytes: &[u8]) -> Result<(), ReadError> {
        if self.is_in_turn() {
            self.row.take_v1(alloc, bytes)?;
            return Ok(());
        }
        self.late.put_v1(alloc, bytes)?;
        Ok(())
    }
}
