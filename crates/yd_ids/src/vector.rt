//! State vectors: the clock that each client has reached.

ghost use Rattle.std.specs.Prelude.{◌≡◌, ◌≢◌, ◌<◌, ◌≤◌, ℕ, [], true, false, length, take, drop, reverse, nat_lt, IfOk, OnOk, OnErr};
ghost use Rattle.std.specs.Bool.{OnTrue, OnFalse};
ghost use Rattle.std.specs.List.{HoldsAt};
ghost use Rattle.std.specs.Iterator.{YieldsFirst, item_count};
ghost use Rattle.yd_words.specs.Each.{Each};
ghost use Rattle.yd_ids.specs.declared.id.Client.{Client};
ghost use Rattle.yd_ids.specs.Id.{IsClient, IsClock};
ghost use Rattle.yd_ids.specs.Vector.{clock_of, IsVector, IsEntry, RaisesOnly, IsOf, IsOther, with_clock, vector_of_entries, HasGreatest};

use crate::fault::NoMemory;
use crate::id::Client;
use std::alloc::Global;
use std::marker::Model;

/// A finite map from clients to clocks, seen as the list of those that are above 0, in order of the
/// clients. Behind it the list is kept in one piece, so that a look-up is a bisection.
#[derive(Drop)]
pub struct Vector {
    entries: Vec<(Client, u64)>,
}

impl Model for Vector {
    ghost use Rattle.std.specs.Prelude.{ℕ, List};
    ghost use Rattle.yd_ids.specs.declared.id.Client.{Client};
    ghost use Rattle.yd_ids.specs.Vector.{IsVector};

    ghost Value = { List (Client × ℕ) };

    ghost view = { λ it. it.entries.items };

    ghost invariant = { λ it. IsVector it.entries.items };
}

impl Vector {
    /// The vector in which each client is at 0.
    pub fn new(alloc: Global) -> Vector
        ensures { result ≡ [] }
    {
        Vector {
            entries: Vec::new(alloc),
        }
    }

    /// The vector of these clients and clocks, in any order: of a client that comes again the
    /// greatest clock stands, and a clock of 0 is as absent. It takes the time of sorting them.
    pub fn of_entries(alloc: Global, entries: Vec<(Client, u64)>) -> Result<Vector, NoMemory>
        requires { Each IsEntry entries.items }
        ensures clocks { IfOk result (λ vector. HasGreatest vector entries.items) }
        ensures exact { IfOk result (λ vector. vector ≡ vector_of_entries entries.items) }
        ensures vector { IfOk result IsVector }
    {
        let entries = collected(alloc, entries)?;
        Ok(Vector { entries })
    }

    /// The clock that the client has reached, which is also the clock of its next unit. It takes
    /// time with the logarithm of how many clients there are.
    pub fn get(&self, client: Client) -> u64
        requires { IsClient client }
        ensures reached { result ≡ clock_of self.now client.0 }
        ensures bound { IsClock result }
    {
        clock_in(&self.entries, client)
    }

    /// Raises the client's clock to this one, if it is lower. It takes memory only for a client that
    /// is new, and time as `get` does, for such a client also that of moving the clients behind it.
    pub fn raise(&mut self, client: Client, clock: u64) -> Result<(), NoMemory>
        requires is_client { IsClient client }
        requires is_clock { IsClock clock }
        ensures raised { OnOk result (RaisesOnly self.old self.new client.0 clock) }
        ensures exact { OnOk result (self.new ≡ with_clock (client, clock) self.old) }
        ensures vector { IsVector self.new }
        ensures unchanged { OnErr result (self.new ≡ self.old) }
        ensures only_new { OnErr result ((clock_of self.old client.0 ≡ 0) × (0 < clock)) }
    {
        raise_in(&mut self.entries, client, clock)?;
        Ok(())
    }

    /// Each client with a clock above 0, and that clock, clients descending. It takes no memory.
    pub fn iter(&self) -> VectorIter<'_>
        ensures descending { result ≡ reverse self.now }
        ensures vector { IsVector self.now }
    {
        VectorIter {
            rest: &self.entries,
        }
    }

    /// The same vector in memory of its own.
    pub fn copy(&self) -> Result<Vector, NoMemory>
        ensures { IfOk result (λ copy. copy ≡ self.now) }
    {
        let entries = Vec::from_slice(*self.entries.allocator(), &self.entries)?;
        Ok(Vector { entries })
    }
}

/// Clients with their clocks, clients descending, seen as the list of those that are still to come.
#[derive(Drop)]
pub struct VectorIter<'a> {
    rest: &'a [(Client, u64)],
}

impl<'a> Model for VectorIter<'a> {
    ghost use Rattle.std.specs.Prelude.{ℕ, List, reverse};
    ghost use Rattle.yd_ids.specs.declared.id.Client.{Client};

    ghost Value = { List (Client × ℕ) };

    ghost view = { λ it. reverse it.rest.now };
}

impl<'a> Iterator for VectorIter<'a> {
    type Item = (Client, u64);

    ghost next_gives = { YieldsFirst (λ s. s) };

    ghost remaining = { item_count (λ s. s) };

    fn next(&mut self) -> Option<(Client, u64)> {
        let (entry, rest) = self.rest.split_last()?;
        self.rest = rest;
        Some(*entry)
    }
}

/// How many entries stand before the client's place.
fn place(entries: &[(Client, u64)], client: Client) -> usize
    requires { IsVector entries.now }
    ensures bound { result ≤ length entries.now }
    ensures before { Each (λ entry. nat_lt entry.0.0 client.0 ≡ true) (take result entries.now) }
    ensures behind { Each (λ entry. nat_lt entry.0.0 client.0 ≡ false) (drop result entries.now) }
{
    entries.partition_point(|entry| entry.0.0 < client.0)
}

/// The client's entry is at this place.
fn is_at(entries: &[(Client, u64)], at: usize, client: Client) -> bool
    ensures inside { OnTrue result (at < length entries.now) }
    ensures found { OnTrue result (HoldsAt (IsOf client.0) entries.now at) }
    ensures other { OnFalse result (at < length entries.now → HoldsAt (IsOther client.0) entries.now at) }
{
    at < entries.len() && entries[at].0.0 == client.0
}

/// The clock of the client among the entries, or 0.
fn clock_in(entries: &[(Client, u64)], client: Client) -> u64
    requires { IsVector entries.now }
    ensures reached { result ≡ clock_of entries.now client.0 }
    ensures bound { IsClock result }
{
    let at = place(entries, client);
    if is_at(entries, at, client) {
        return entries[at].1;
    }
    0
}

/// Raises the client's clock among the entries.
fn raise_in(entries: &mut Vec<(Client, u64)>, client: Client, clock: u64) -> Result<(), NoMemory>
    requires is_client { IsClient client }
    requires is_clock { IsClock clock }
    requires vector { IsVector entries.old.items }
    ensures raised { OnOk result (RaisesOnly entries.old.items entries.new.items client.0 clock) }
    ensures kept { IsVector entries.new.items }
    ensures unchanged { OnErr result (entries.new.items ≡ entries.old.items) }
    ensures only_new { OnErr result ((clock_of entries.old.items client.0 ≡ 0) × (0 < clock)) }
{
    let at = place(entries, client);
    if is_at(entries, at, client) {
        let reached = entries[at].1;
        entries[at] = (client, reached.max(clock));
        return Ok(());
    }
    if clock > 0 {
        entries.insert(at, (client, clock))?;
    }
    Ok(())
}

/// The greatest clock of each client among the entries.
fn collected(alloc: Global, mut entries: Vec<(Client, u64)>) -> Result<Vec<(Client, u64)>, NoMemory>
    requires { Each IsEntry entries.items }
    ensures vector { IfOk result (λ vector. IsVector vector.items) }
    ensures clocks { IfOk result (λ vector. HasGreatest vector.items entries.items) }
{
    // In order, each new client goes behind the others, so that none is moved.
    entries.sort_unstable();
    let vector = raised_by(alloc, &entries)?;
    Ok(vector)
}

/// The same, by one raise after another.
fn raised_by(alloc: Global, entries: &[(Client, u64)]) -> Result<Vec<(Client, u64)>, NoMemory>
    requires { Each IsEntry entries.now }
    ensures vector { IfOk result (λ vector. IsVector vector.items) }
    ensures clocks { IfOk result (λ vector. HasGreatest vector.items entries.now) }
{
    let mut vector = Vec::new(alloc);
    for entry in entries {
        raise_in(&mut vector, entry.0, entry.1)?;
    }
    Ok(vector)
}
