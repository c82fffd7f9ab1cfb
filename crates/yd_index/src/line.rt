//! The index of one client.

ghost use Rattle.std.specs.Prelude.{◌≡◌, ◌<◌, ◌≤◌, ◌+◌, ◌^◌, ◌++◌, ◌∷◌, [], Some, nat_lt, length, HoldsAt, IfSome, OnOk, OnErr, IsOk};
ghost use Rattle.yd_pieces.specs.Pieces.{IsBoundary};
ghost use Rattle.yd_index.specs.Line.{Fills, IsInside, Begins, entry_in, with_cut, without_cut, IsSame};

use std::alloc::{AllocError, Global};
use std::marker::Model;
use yd_ids::Client;
use yd_pieces::{Pieces, Test};

/// That a run of a client begins at a clock, and where it stands.
#[derive(Clone, Copy, Debug)]
pub struct Entry {
    /// The clock of its first unit.
    pub clock: u64,
    /// Its place in the arena.
    pub place: usize,
}

/// Entries that begin below a clock.
#[derive(Drop)]
struct Below(u64);

impl Test<Entry> for Below {
    ghost passes = { λ s e. nat_lt e.clock s.0 };

    fn passes(&self, item: &Entry) -> bool {
        item.clock < self.0
    }
}

/// How many entries begin at a clock or below it.
fn begun(entries: &Pieces<Entry>, clock: u64) -> usize
    requires { clock + 1 < 2 ^ 64 }
    ensures bound { result ≤ length entries.now.items }
    ensures boundary { IsBoundary (λ e. nat_lt e.clock (clock + 1)) entries.now.items result }
{
    entries.partition_point(&Below(clock + 1))
}

/// The runs of one client, by the clocks where they begin. They fill the clocks from 0 to the next one.
#[derive(Drop)]
pub struct Line {
    client: Client,
    entries: Pieces<Entry>,
    next: u64,
}

impl Model for Line {
    ghost use Rattle.yd_index.specs.Line.{Lined, Fills};

    ghost Value = { Lined };

    ghost view = { λ it. record {
      client = it.client.0;
      entries = it.entries.items;
      next = it.next;
      room = it.entries.room;
    } };

    ghost invariant = { λ it. Fills 0 it.entries.items it.next };
}

impl Line {
    /// No run of a client, whose next clock is 0. It takes no memory.
    pub fn new(alloc: Global, client: Client) -> Line
        ensures client { result.client ≡ client.0 }
        ensures entries { result.entries ≡ [] }
        ensures next { result.next ≡ 0 }
    {
        Line {
            client,
            entries: Pieces::new(alloc),
            next: 0,
        }
    }

    /// Whose runs they are.
    pub fn client(&self) -> Client
        ensures { result.0 ≡ self.now.client }
    {
        self.client
    }

    /// The clock behind the last run, which is that of the next unit.
    pub fn next(&self) -> u64
        ensures { result ≡ self.now.next }
    {
        self.next
    }

    /// The entry of the run that has the unit with this clock, or None from the next clock on. It is a
    /// bisection.
    pub fn find(&self, clock: u64) -> Option<Entry>
        ensures value { result ≡ entry_in self.now.entries self.now.next clock }
        ensures begun { IfSome result (λ e. e.clock ≤ clock) }
        ensures fills { Fills 0 self.now.entries self.now.next }
    {
        if clock >= self.next {
            return None;
        }
        self.entries.last_passed(&Below(clock + 1)).copied()
    }

    /// Makes room for so many runs, or finds no memory for it. No room is lost.
    pub fn reserve(&mut self, more: usize) -> Result<(), AllocError>
        ensures same { IsSame self.old self.new }
        ensures room { OnOk result (more ≤ self.new.room) }
        ensures kept { self.old.room ≤ self.new.room }
        ensures succeeds { more ≤ self.old.room → IsOk result }
    {
        self.entries.reserve(more)
    }

    /// Adds the next run of the client, of so many units. While there is room, this takes no memory.
    pub fn add(&mut self, place: usize, len: u64) -> Result<(), AllocError>
        requires filled { 0 < len }
        requires fits { self.old.next + len < 2 ^ 64 }
        ensures client { self.new.client ≡ self.old.client }
        ensures entries { OnOk result (self.new.entries ≡
            self.old.entries ++ record { clock = self.old.next; place = place } ∷ []) }
        ensures next { OnOk result (self.new.next ≡ self.old.next + len) }
        ensures unchanged { OnErr result (IsSame self.old self.new) }
        ensures room { self.old.room ≤ self.new.room + 1 }
        ensures succeeds { 0 < self.old.room → IsOk result }
    {
        self.entries.push(Entry {
            clock: self.next,
            place,
        })?;
        self.next += len;
        Ok(())
    }

    /// Cuts the run that has the unit with this clock, which is not its first: the units from there
    /// on are a run of their own, at this place.
    pub fn cut(&mut self, clock: u64, place: usize) -> Result<(), AllocError>
        requires { IsInside self.old.entries self.old.next clock }
        ensures client { self.new.client ≡ self.old.client }
        ensures next { self.new.next ≡ self.old.next }
        ensures done { OnOk result (self.new.entries ≡
            with_cut self.old.entries self.old.next clock place) }
        ensures unchanged { OnErr result (self.new.entries ≡ self.old.entries) }
    {
        let n = begun(&self.entries, clock);
        self.entries.insert(n, Entry { clock, place })?;
        Ok(())
    }

    /// Undoes a cut: the run that begins with this clock, which is not the first, is one with the run
    /// before it again. It takes no memory.
    pub fn uncut(&mut self, clock: u64)
        requires { Begins self.old.entries self.old.next clock }
        ensures client { self.new.client ≡ self.old.client }
        ensures next { self.new.next ≡ self.old.next }
        ensures entries { self.new.entries ≡ without_cut self.old.entries clock }
        ensures room { self.old.room ≤ self.new.room }
    {
        let n = begun(&self.entries, clock);
        let _ = self.entries.remove(n - 1);
    }

    /// Takes the last run out, and answers its entry. Its first clock is the next one again. It takes
    /// no memory.
    pub fn pop(&mut self) -> Entry
        requires { 0 < self.old.next }
        ensures client { self.new.client ≡ self.old.client }
        ensures entries { self.old.entries ≡ self.new.entries ++ result ∷ [] }
        ensures next { self.new.next ≡ result.clock }
        ensures room { self.old.room ≤ self.new.room }
    {
        let n = self.entries.len();
        let last = self.entries.remove(n - 1);
        self.next = last.clock;
        last
    }
}
