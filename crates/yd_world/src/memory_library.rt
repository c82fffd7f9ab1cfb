//! A library in memory.

ghost use Rattle.std.specs.Prelude.{◌≡◌, ◌+◌, ◌-◌, ◌^◌, ◌<◌, ◌≤◌, [], Some, length, take, drop, min, is_err, IfOk, OnOk, OnErr};
ghost use Rattle.yd_world.specs.MemoryLibrary.{Adds, IsLast, IsPlace, bytes_at, fails_to_begin, no_files, shelf_of};
ghost use Rattle.yd_world.specs.Plan.{counted, is_due, with_failure};
ghost use Rattle.yd_world.specs.Shelf.{Begins, Gives};

use crate::blob::Blob8;
use crate::fault::{Failed, NoMemory};
use crate::library::Library;
use crate::plan::Plan;
use std::alloc::Global;
use std::marker::Model;

/// Bytes under a name.
#[derive(Drop)]
pub struct Stored {
    name: Blob8,
    bytes: Blob8,
}

/// How far a file is read: which one, and how many of its bytes.
#[derive(Clone, Copy)]
pub struct Place {
    file: usize,
    at: usize,
}

/// Files in memory, of which all is told (own).
#[derive(Drop)]
pub struct MemoryLibrary {
    alloc: Global,
    files: Vec<Stored>,
    begun: Option<usize>,
    place: Option<Place>,
    piece: usize,
    plan: Plan,
}

impl Model for MemoryLibrary {
    ghost use Rattle.std.specs.Prelude.{◌<◌};
    ghost use Rattle.yd_world.specs.MemoryLibrary.{IsFile, IsPlace, LibraryState, begun_at, unread_at};

    ghost Value = { LibraryState };

    ghost view = { λ l. record {
      files = l.files.items;
      begun = begun_at l.files.items l.begun;
      unread = unread_at l.files.items l.place;
      piece = l.piece;
      plan = l.plan;
    } };

    ghost invariant = { λ l. IsPlace l.files.items l.place × IsFile l.files.items l.begun × (0 < l.piece) };
}

impl MemoryLibrary {
    /// No file, no call set to fail, and no limit to a read.
    pub fn new(alloc: Global) -> Self
        ensures { result ≡ no_files }
    {
        MemoryLibrary {
            alloc,
            files: Vec::new(alloc),
            begun: None,
            place: None,
            piece: usize::MAX,
            plan: Plan::new(alloc),
        }
    }

    /// Puts bytes under a name, in place of those that it had. A file that is being read goes on
    /// with the bytes that it had when it was begun.
    pub fn add(&mut self, name: &str, bytes: &[u8]) -> Result<(), NoMemory>
        ensures added { OnOk result (Adds self.old self.new name.now bytes.now) }
        ensures unchanged { OnErr result (self.new ≡ self.old) }
    {
        let name = Blob8::copy_of(self.alloc, name.as_bytes())?;
        let bytes = Blob8::copy_of(self.alloc, bytes)?;
        self.files.push(Stored { name, bytes })?;
        Ok(())
    }

    /// From now on one read gives at most so many bytes.
    pub fn piece(&mut self, n: usize)
        requires { 1 ≤ n }
        ensures { self.new ≡ record self.old { piece = n } }
    {
        self.piece = n;
    }

    /// Sets a call to fail. The calls of `begin` and `read` are counted together, from 0 on.
    pub fn fail_at(&mut self, call: u64) -> Result<(), NoMemory>
        ensures set { OnOk result
            (self.new ≡ record self.old { plan = with_failure self.old.plan call }) }
        ensures unchanged { OnErr result (self.new ≡ self.old) }
    {
        self.plan.add(call)
    }
}

impl Library for MemoryLibrary {
    ghost told = { λ l. Some (shelf_of l) };

    ghost faults = { λ l. l.plan.faults };

    ghost is_calm = { λ l. l.plan.failures ≡ [] };

    fn begin(&mut self, name: &str) -> Result<(), Failed>
        ensures begins { Begins (Some (shelf_of self.old)) (Some (shelf_of self.new))
            name.now result }
        ensures fails { is_err result ≡ fails_to_begin self.old name.now }
        ensures counts { self.new.plan ≡ counted self.old.plan (is_err result) }
        ensures piece { self.new.piece ≡ self.old.piece }
    {
        let found = last_under(self.files.as_slice(), name.as_bytes());
        self.begun = found;
        if self.plan.is_due() {
            self.plan.count_failure();
            return Err(Failed);
        }
        match found {
            None => {
                self.plan.count_failure();
                Err(Failed)
            }
            Some(file) => {
                self.plan.count_call();
                self.place = Some(Place { file, at: 0 });
                Ok(())
            }
        }
    }

    fn read(&mut self, into: &mut [u8]) -> Result<usize, Failed>
        ensures within { IfOk result (λ count. count ≤ length into.new) }
        ensures gives { Gives (Some (shelf_of self.old)) (Some (shelf_of self.new)) into.new
            result }
        ensures whole { IfOk result (λ count. count
            ≡ min (length self.old.unread) (min self.old.piece (length into.new))) }
        ensures fails { is_err result ≡ is_due self.old.plan }
        ensures counts { self.new.plan ≡ counted self.old.plan (is_err result) }
        ensures piece { self.new.piece ≡ self.old.piece }
    {
        if self.plan.is_due() {
            self.plan.count_failure();
            return Err(Failed);
        }
        self.plan.count_call();
        let Some(place) = self.place else {
            return Ok(0);
        };
        let count = read_at(self.files.as_slice(), place, self.piece, into);
        self.place = Some(Place {
            file: place.file,
            at: place.at + count,
        });
        Ok(count)
    }
}

/// Which file was added last under the name.
fn last_under(files: &[Stored], name: &[u8]) -> Option<usize>
    ensures { IsLast files.now name.now result }
{
    let mut found = None;
    for (file, stored) in files.iter().enumerate() {
        if stored.name.as_slice() == name {
            found = Some(file);
        }
    }
    found
}

/// Copies at most so many bytes from the place on.
fn read_at(files: &[Stored], place: Place, most: usize, into: &mut [u8]) -> usize
    requires { IsPlace files.now (Some place) }
    ensures count { result ≡ min (length (bytes_at files.now place.file) - place.at)
        (min most (length into.new)) }
    ensures fits { place.at + result < 2 ^ 64 }
    ensures bytes { take result into.new
        ≡ take result (drop place.at (bytes_at files.now place.file)) }
{
    let bytes = files[place.file].bytes.as_slice();
    let (_, rest) = bytes.split_at(place.at);
    copy_front(rest, most, into)
}

/// Copies at most so many bytes to the front of the buffer.
fn copy_front(from: &[u8], most: usize, into: &mut [u8]) -> usize
    ensures count { result ≡ min (length from.now) (min most (length into.new)) }
    ensures bytes { take result into.new ≡ take result from.now }
{
    let count = from.len().min(most.min(into.len()));
    into[..count].copy_from_slice(&from[..count]);
    count
}
