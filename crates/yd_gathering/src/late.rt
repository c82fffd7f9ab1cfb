//! Updates that are put off, as bytes.

ghost use Rattle.std.specs.Prelude.{◌≡◌, [], ◌∷◌, List, map, IsTrue, IfOk, OnOk};
ghost use Rattle.std.specs.List.Sorted.{IsPermutation};
ghost use Rattle.yd_words.specs.Each.{Each};
ghost use Rattle.yd_ops.specs.Valid.{IsValidUpdate};
ghost use Rattle.yd_ops.specs.View.{update_value};
ghost use Rattle.yd_parts.specs.Fault.{FailsAs};
ghost use Rattle.yd_v1.specs.Log.{TakesMore, TakesV1};
ghost use Rattle.yd_v1.specs.Reading.{v1_reading};
ghost use Rattle.yd_gathering.specs.Late.{HasLate, IsBodyAt, IsWant, KeepsBody, body_at, update_at};
ghost use Rattle.yd_gathering.specs.Row.{HasRow};
ghost use Rattle.yd_gathering.specs.Said.{SaysInTurn};

use crate::first::First;
use crate::row::Row;
use std::alloc::Global;
use yd_ids::Id;
use yd_ops::Update;
use yd_parts::{NoMemory, ReadError};
use yd_v1::{UpdateList, take_structs_v1, write_v1};

/// Updates that were taken and are gathered later. Each was read once, so that a fault is told when
/// it comes, and is kept as its bytes in V1.
#[derive(Drop)]
pub struct Late {
    // The bytes of each, one behind the other.
    bytes: Vec<u8>,
    // Where each of them lies, in the order in which they came.
    places: Vec<Place>,
}

/// Where the bytes of an update lie.
#[derive(Clone, Copy)]
pub struct Place {
    /// Where its first block begins. By this alone updates are put in order.
    pub first: Id,
    /// Its first byte.
    pub from: usize,
    /// Behind its last byte.
    pub to: usize,
}

impl Late {
    /// No update.
    pub fn new(alloc: Global) -> Late
        ensures { HasLate result [] }
    {
        Late {
            bytes: Vec::new(alloc),
            places: Vec::new(alloc),
        }
    }

    /// Whether there is none.
    pub fn is_empty(&self) -> bool
        ensures { IsTrue result → self.now.places.items ≡ [] }
    {
        self.places.is_empty()
    }

    /// Puts off the update that bytes in V1 stand for, or tells the first fault in them.
    pub fn put_v1(&mut self, alloc: Global, bytes: &[u8]) -> Result<(), ReadError>
        ensures took { OnOk result (TakesV1 bytes.now (HasLate self.old) (HasLate self.new)) }
        ensures fails { FailsAs result (v1_reading bytes.now) }
    {
        let mut first = First::new();
        take_structs_v1(alloc, bytes, &mut first)?;
        self.keep(first.id(), bytes)?;
        Ok(())
    }

    /// Puts off an update, as its bytes in V1.
    pub fn put(&mut self, alloc: Global, update: &Update) -> Result<(), NoMemory>
        requires { IsValidUpdate (update_value update.now) }
        ensures { OnOk result
            (TakesMore (HasLate self.old) (HasLate self.new) (update_value update.now ∷ [])) }
    {
        let bytes = write_v1(alloc, update)?;
        match self.put_v1(alloc, bytes.as_slice()) {
            Ok(()) => Ok(()),
            Err(error) => Err(only_memory(error)),
        }
    }

    /// What those at the places say, gathered in the order of these.
    pub fn gathered(&self, alloc: Global, places: &[Place]) -> Result<UpdateList, NoMemory>
        requires { Each (IsBodyAt self.now.bytes.items) places.now }
        ensures { IfOk result (λ list. SaysInTurn
            (map (update_at self.now.bytes.items) places.now) (map update_value list)) }
    {
        let mut row = Row::new(alloc);
        for place in places {
            self.gather(alloc, place, &mut row)?;
        }
        let list = row.finish()?;
        Ok(list)
    }

    /// Where they lie, in the order in which they came.
    pub fn places(&self) -> &[Place]
        ensures { result.now ≡ self.now.places.items }
    {
        self.places.as_slice()
    }

    /// Where they lie, in the order in which their first blocks begin.
    pub fn places_by_id(&self, alloc: Global) -> Result<Vec<Place>, NoMemory>
        ensures { IfOk result (λ sorted. IsPermutation self.now.places.items sorted.items) }
    {
        let mut places = Vec::new(alloc);
        places.extend_from_slice(self.places.as_slice())?;
        places.sort_unstable_by_key(|place| (place.first.client.0, place.first.clock));
        Ok(places)
    }

    // Gathers the one at a place. It was read before, so nothing but memory can be wanting.
    fn gather(&self, alloc: Global, place: &Place, row: &mut Row) -> Result<(), NoMemory>
        requires { IsBodyAt self.now.bytes.items place.now }
        ensures { OnOk result (TakesV1 (body_at self.now.bytes.items place.now)
            (HasRow row.old) (HasRow row.new)) }
    {
        match row.take_v1(alloc, &self.bytes[place.from..place.to]) {
            Ok(()) => Ok(()),
            Err(error) => Err(only_memory(error)),
        }
    }

    // Keeps the bytes of an update whose first block begins at the id.
    fn keep(&mut self, first: Id, bytes: &[u8]) -> Result<(), NoMemory>
        ensures { OnOk result (KeepsBody bytes.now self.old self.new) }
    {
        let from = self.bytes.len();
        self.bytes.extend_from_slice(bytes)?;
        let to = self.bytes.len();
        self.places.push(Place { first, from, to })?;
        Ok(())
    }
}

// An error that is no fault.
fn only_memory(error: ReadError) -> NoMemory
    requires { IsWant error }
{
    match error {
        ReadError::NoMemory => NoMemory,
        ReadError::Fault { .. } => unreachable!(),
    }
}
