//! A list of entries, as one value.

ghost use Rattle.std.specs.List.Sorted.{IsPartitionPoint, IsPartitionedBy};
ghost use Rattle.std.specs.Prelude.{◌≡◌, ◌<◌, ◌≤◌, true, false, [], length, filter, insert, remove, set, slice_index_or, OnOk, OnErr, IfOk};
ghost use Rattle.std.specs.Iterator.{YieldsFirst, item_count};
ghost use Rattle.yd_pieces.specs.Pieces.{IsBoundary};
ghost use Rattle.yd_entries.specs.Entries.{is_of_first};

use crate::entry::Entry;
use crate::fault::NoMemory;
use std::alloc::Global;
use std::marker::Model;
use yd_pieces::{Pieces, PiecesIter, Test};

/// Entries in a row, seen as a plain list. They lie in pieces, so that one more in their midst moves
/// few others.
#[derive(Drop)]
pub struct Entries {
    entries: Pieces<Entry>,
}

impl Model for Entries {
    ghost use Rattle.std.specs.Prelude.{List};
    ghost use Rattle.yd_entries.specs.declared.entry.Entry.{Entry};

    ghost Value = { List Entry };

    ghost view = { λ it. it.entries.items };
}

impl Entries {
    /// No entry. It takes no memory.
    pub fn new(alloc: Global) -> Entries
        ensures { result ≡ [] }
    {
        Entries {
            entries: Pieces::new(alloc),
        }
    }

    /// How many entries there are.
    pub fn len(&self) -> usize
        ensures { result ≡ length self.now }
    {
        self.entries.len()
    }

    /// The entry at a place, from 0. It takes time with the number of pieces before it.
    pub fn get(&self, at: usize) -> Entry
        requires { at < length self.now }
        ensures { result ≡ slice_index_or self.now at result }
    {
        *self.entries.get(at)
    }

    /// The entries in their order. It takes no memory.
    pub fn iter(&self) -> EntryIter<'_>
        ensures { result ≡ self.now }
    {
        EntryIter {
            rest: self.entries.iter(),
        }
    }

    /// Where the entries that pass end, as [`Pieces::partition_point`] finds it.
    pub fn partition_point<P: Test<Entry>>(&self, test: &P) -> usize
        ensures bound { result ≤ length self.now }
        ensures boundary { IsBoundary (P.passes test.now) self.now result }
        ensures partitioned { IsPartitionedBy (P.passes test.now) self.now →
            IsPartitionPoint (λ y. P.passes test.now y ≡ true)
            (λ y. P.passes test.now y ≡ false) self.now result }
    {
        self.entries.partition_point(test)
    }

    /// The same entries, in memory of their own.
    pub fn copy(&self, alloc: Global) -> Result<Entries, NoMemory>
        ensures { IfOk result (λ copy. copy ≡ self.now) }
    {
        // As many are copied as there are.
        let mut entries = Pieces::new(alloc);
        for entry in self.entries.iter() {
            entries.push(*entry)?;
        }
        Ok(Entries { entries })
    }

    /// Takes memory for so many entries ahead, or finds none. It is for what comes next at the end:
    /// nothing changes that is told.
    pub fn reserve(&mut self, more: usize) -> Result<(), NoMemory>
        ensures { self.new ≡ self.old }
    {
        self.entries.reserve(more)?;
        Ok(())
    }

    /// Puts an entry in place of the one at a place.
    pub fn set(&mut self, at: usize, entry: Entry)
        requires { at < length self.old }
        ensures { self.new ≡ set self.old at entry }
    {
        self.entries.set(at, entry);
    }

    /// Puts an entry in front of the one at a place, or at the end. It moves the entries of one piece.
    pub fn insert(&mut self, at: usize, entry: Entry) -> Result<(), NoMemory>
        requires { at ≤ length self.old }
        ensures inserted { OnOk result (self.new ≡ insert self.old at entry) }
        ensures unchanged { OnErr result (self.new ≡ self.old) }
    {
        // Mostly it stands behind all others.
        if at == self.entries.len() {
            self.entries.push(entry)?;
        } else {
            self.entries.insert(at, entry)?;
        }
        Ok(())
    }

    /// Takes the entry at a place out. It moves the entries of one piece.
    pub fn remove(&mut self, at: usize)
        requires { at < length self.old }
        ensures { self.new ≡ remove self.old at }
    {
        self.entries.remove(at);
    }

    /// Keeps those of the first runs. It takes time with the number of entries.
    pub fn keep_first(&mut self, count: usize)
        ensures { self.new ≡ filter (is_of_first count) self.old }
    {
        self.entries.retain(&OfFirst { count });
    }
}

/// A test for entries of so many first runs.
#[derive(Drop)]
struct OfFirst {
    count: usize,
}

impl Test<Entry> for OfFirst {
    ghost use Rattle.yd_entries.specs.Entries.{is_of_first};

    ghost passes = { λ test entry. is_of_first test.count entry };

    fn passes(&self, entry: &Entry) -> bool {
        entry.run < self.count
    }
}

/// Entries in their order, seen as the list of those that are still to come.
#[derive(Drop)]
pub struct EntryIter<'a> {
    rest: PiecesIter<'a, Entry>,
}

impl<'a> Model for EntryIter<'a> {
    ghost use Rattle.std.specs.Prelude.{List};
    ghost use Rattle.yd_entries.specs.declared.entry.Entry.{Entry};

    ghost Value = { List Entry };

    ghost view = { λ it. it.rest };
}

impl<'a> Iterator for EntryIter<'a> {
    type Item = Entry;

    ghost next_gives = { YieldsFirst (λ s. s) };

    ghost remaining = { item_count (λ s. s) };

    fn next(&mut self) -> Option<Entry> {
        let entry = self.rest.next()?;
        Some(*entry)
    }
}
