//! The index of all clients, a line for each.

ghost use Rattle.std.specs.Prelude.{◌≡◌, ◌≢◌, ◌<◌, ◌≤◌, ◌+◌, ◌^◌, [], ℕ, OnOk, OnErr, IsOk};
ghost use Rattle.yd_index.specs.Line.{IsInside, Begins};
ghost use Rattle.yd_index.specs.Lines.{entries_of, next_of, room_of, entry_at, Adds, Cuts, Uncuts, Pops, Stays, KeepsLines};

use crate::line::{Entry, Line};
use crate::lines::{seat, seat_made};
use std::alloc::{AllocError, Global};
use std::marker::Model;
use yd_ids::{Client, Id};

/// For each client its runs, by the clocks where they begin. A client need not have a line. Without
/// one it has no entry, next clock 0 and no room.
#[derive(Drop)]
pub struct Index {
    lines: Vec<Line>,
}

impl Model for Index {
    ghost use Rattle.std.specs.Prelude.{List};
    ghost use Rattle.yd_index.specs.Line.{Lined};
    ghost use Rattle.yd_index.specs.Lines.{AreLines};

    ghost Value = { List Lined };

    ghost view = { λ it. it.lines.items };

    ghost invariant = { λ it. AreLines 0 it.lines.items };
}

impl Index {
    /// No run of any client. It takes no memory.
    pub fn new(alloc: Global) -> Index
        ensures { result ≡ [] }
    {
        Index {
            lines: Vec::new(alloc),
        }
    }

    /// The clock behind the client's last run, which is that of its next unit.
    pub fn next(&self, client: Client) -> u64
        ensures { result ≡ next_of self.now client.0 }
    {
        let Some(i) = seat(&self.lines, client) else {
            return 0;
        };
        self.lines[i].next()
    }

    /// The entry of the run that has the unit with this id, or None from the client's next clock on.
    /// It is a bisection over the clients and one over the client's runs.
    pub fn entry(&self, id: Id) -> Option<Entry>
        ensures { result ≡ entry_at self.now id }
    {
        let i = seat(&self.lines, id.client)?;
        self.lines[i].find(id.clock)
    }

    /// Makes room for so many runs of the client, or finds no memory for it. No room is lost.
    pub fn reserve(&mut self, client: Client, more: usize) -> Result<(), AllocError>
        ensures kept { KeepsLines self.old self.new }
        ensures room { OnOk result (more ≤ room_of self.new client.0) }
        ensures succeeds { 0 < more → more ≤ room_of self.old client.0 → IsOk result }
    {
        let i = seat_made(&mut self.lines, client)?;
        self.lines[i].reserve(more)?;
        Ok(())
    }

    /// Adds the next run of the client, of so many units. While there is room for it, this takes no
    /// memory.
    pub fn add(&mut self, client: Client, place: usize, len: u64) -> Result<(), AllocError>
        requires filled { 0 < len }
        requires fits { next_of self.old client.0 + len < 2 ^ 64 }
        ensures done { OnOk result (Adds self.old self.new client.0 place len) }
        ensures unchanged { OnErr result (Stays self.old self.new client.0) }
        ensures room { room_of self.old client.0 ≤ room_of self.new client.0 + 1 }
        ensures other_rooms { (k : ℕ) → k ≢ client.0 → room_of self.old k ≤ room_of self.new k }
        ensures succeeds { 0 < room_of self.old client.0 → IsOk result }
    {
        let i = seat_made(&mut self.lines, client)?;
        self.lines[i].add(place, len)?;
        Ok(())
    }

    /// Cuts the run that has the unit with this id, which is not its first: the units from there on
    /// are a run of their own, at this place.
    pub fn cut(&mut self, id: Id, place: usize) -> Result<(), AllocError>
        requires { IsInside (entries_of self.old id.client.0) (next_of self.old id.client.0)
            id.clock }
        ensures done { OnOk result (Cuts self.old self.new id place) }
        ensures unchanged { OnErr result (Stays self.old self.new id.client.0) }
        ensures other_rooms { (k : ℕ) → k ≢ id.client.0 → room_of self.old k ≤ room_of self.new k }
    {
        let Some(i) = seat(&self.lines, id.client) else {
            return Err(AllocError);
        };
        self.lines[i].cut(id.clock, place)?;
        Ok(())
    }

    /// Undoes a cut: the run that begins with this id, which is not its client's first, is one with
    /// the run before it again. It takes no memory, and no room is lost.
    pub fn uncut(&mut self, id: Id)
        requires { Begins (entries_of self.old id.client.0) (next_of self.old id.client.0)
            id.clock }
        ensures done { Uncuts self.old self.new id }
        ensures rooms { (k : ℕ) → room_of self.old k ≤ room_of self.new k }
    {
        let Some(i) = seat(&self.lines, id.client) else {
            unreachable!();
        };
        self.lines[i].uncut(id.clock);
    }

    /// Takes the client's last run out, and answers its entry. Its first clock is the client's next one
    /// again. It takes no memory, and no room is lost.
    pub fn pop(&mut self, client: Client) -> Entry
        requires { 0 < next_of self.old client.0 }
        ensures done { Pops self.old self.new client.0 result }
        ensures rooms { (k : ℕ) → room_of self.old k ≤ room_of self.new k }
    {
        let Some(i) = seat(&self.lines, client) else {
            unreachable!();
        };
        self.lines[i].pop()
    }
}
