//! The arena: runs, the lists that link them, and the index that finds them.

ghost use Rattle.std.specs.Prelude.{◌≡◌, ◌<◌, ◌≤◌, ◌⊎◌, ◌+◌, ◌++◌, ◌∷◌, [], ℕ, length, IfSome, IfNone, IfOk, OnOk, OnErr, IsOk};
ghost use Rattle.yd_ids.specs.Id.{IsClock};
ghost use Rattle.yd_words.specs.Member.{IsIn};
ghost use Rattle.yd_scan.specs.Stretches.{stretch_at, IsNoLater, EndsLeft};
ghost use Rattle.yd_arena.specs.Lists.{AreLists};
ghost use Rattle.yd_arena.specs.Arena.{runs_of, count_of, places_in, next_clock, room_for, IsArena, HasUnit, IsSame, CutsRun, CutsAt, GrowsByRun, AddsLoose, TakesLast};
ghost use Rattle.yd_arena.specs.Joining.{IsJoint, JoinsLast};

use crate::beside::{Beside, cut_both};
use crate::growing::add_entry;
use crate::lists::Lists;
use std::alloc::{AllocError, Global};
use std::marker::Model;
use yd_ids::{Client, Id};
use yd_index::Index;
use yd_scan::Stretch;

/// The greatest clock that a client can reach, which no unit has.
const LAST_CLOCK: u64 = 9007199254740991;

/// Where a unit stands: in the run at a place, behind so many of its units.
#[derive(Clone, Copy, Debug)]
pub struct Found {
    /// The place of its run.
    pub place: usize,
    /// How many units of the run stand before it.
    pub before: u64,
}

/// Runs at places, each of which is in one list at most, and the index that finds their units. The
/// runs of a client fill its clocks from 0 to its next one, without a gap.
///
/// Contracts see the runs with their lists, `linked`, and of the index each client's next clock and
/// room ([`next_clock`](Arena::next_clock), [`reserve`](Arena::reserve)).
#[derive(Drop)]
pub struct Arena {
    index: Index,
    lists: Lists,
}

impl Model for Arena {
    ghost use Rattle.yd_arena.specs.Arena.{Placed, IsArena};

    ghost Value = { Placed };

    ghost view = { λ it. record { lines = it.index; linked = it.lists } };

    ghost invariant = { λ it. IsArena it.index it.lists.stretches };
}

impl Arena {
    /// No run, and no list. It takes no memory.
    pub fn new(alloc: Global) -> Arena
        ensures runs { runs_of result ≡ [] }
        ensures lists { count_of result ≡ 0 }
        ensures clocks { (client : ℕ) → next_clock result client ≡ 0 }
    {
        Arena {
            index: Index::new(alloc),
            lists: Lists::new(alloc),
        }
    }

    /// The runs and their lists.
    pub fn lists(&self) -> &Lists
        ensures value { result.now ≡ self.now.linked }
        ensures lists { AreLists self.now.linked }
    {
        self.lists.are_lists();
        &self.lists
    }

    /// The clock of the client's next unit.
    pub fn next_clock(&self, client: Client) -> u64
        ensures value { result ≡ next_clock self.now client.0 }
        ensures bound { IsClock result }
    {
        self.index.next(client)
    }

    /// Where the unit with an id stands. None is from the client's next clock on.
    pub fn find(&self, id: Id) -> Option<Found>
        ensures found { IfSome result (λ at. HasUnit (runs_of self.now) at.place at.before id) }
        ensures missing { IfNone result (next_clock self.now id.client.0 ≤ id.clock) }
        ensures arena { IsArena self.now.lines (runs_of self.now) }
    {
        let index = &self.index;
        // No unit has this clock or a greater one, so that it is not looked up.
        if id.clock >= LAST_CLOCK {
            return None;
        }
        let entry = index.entry(id)?;
        Some(Found {
            place: entry.place,
            before: id.clock - entry.clock,
        })
    }

    /// One list more, which is empty. Its number is how many there were before.
    pub fn add_list(&mut self) -> Result<usize, AllocError>
        ensures number { IfOk result (λ list. list ≡ count_of self.old) }
        ensures lists { OnOk result (self.new.linked.lists ≡ self.old.linked.lists ++ [] ∷ []) }
        ensures unchanged { OnErr result (self.new.linked.lists ≡ self.old.linked.lists) }
        ensures runs { runs_of self.new ≡ runs_of self.old }
        ensures lines { self.new.lines ≡ self.old.lines }
        ensures room { self.new.linked.room ≡ self.old.linked.room }
    {
        self.lists.add_list()
    }

    /// Makes room for so many runs of a client, or finds no memory for it.
    pub fn reserve(&mut self, client: Client, more: usize) -> Result<(), AllocError>
        ensures same { IsSame self.old self.new }
        ensures room { OnOk result (more ≤ room_for self.new client.0) }
        ensures succeeds { 0 < more → more ≤ room_for self.old client.0 → IsOk result }
        ensures kept { (other : ℕ) → room_for self.old other ≤ room_for self.new other }
    {
        self.lists.reserve(more)?;
        self.index.reserve(client, more)
    }

    /// Takes memory for so many runs ahead, of whichever clients, or finds none. It is for what comes
    /// next: nothing changes that is told, and no room is lost. The index takes none ahead, since a long
    /// piece of one makes cuts slow.
    pub fn reserve_places(&mut self, more: usize) -> Result<(), AllocError>
        ensures same { IsSame self.old self.new }
        ensures lines { self.new.lines ≡ self.old.lines }
        ensures kept { (client : ℕ) → room_for self.old client ≤ room_for self.new client }
    {
        self.lists.reserve_places(more)
    }

    /// Cuts a run in two behind so many units. The second part goes behind the first in its list, if it
    /// is in one, and its place is answered.
    pub fn cut(&mut self, place: usize, n: u64) -> Result<usize, AllocError>
        requires place { place < length (runs_of self.old) }
        requires before { 0 < n }
        requires within { n < (stretch_at (runs_of self.old) place).len }
        ensures place { IfOk result (λ more. more ≡ length (runs_of self.old)) }
        ensures done { OnOk result (CutsRun self.old self.new place n) }
        ensures unchanged { OnErr result (IsSame self.old self.new) }
    {
        self.lists.reserve(1)?;
        let more = self.lists.len();
        let first = self.lists.stretch(place).id;
        let id = Id {
            client: first.client,
            clock: first.clock + n,
        };
        self.index.cut(id, more)?;
        Ok(self.lists.cut(place, n))
    }

    /// Cuts a run in two behind so many units, and what lies beside it, or neither. The second part
    /// goes behind the first in its list, if it is in one, and its place is answered.
    pub fn cut_with<B: Beside>(
        &mut self,
        place: usize,
        n: u64,
        beside: &mut B,
    ) -> Result<usize, AllocError>
        requires place { place < length (runs_of self.old) }
        requires before { 0 < n }
        requires within { n < (stretch_at (runs_of self.old) place).len }
        requires can { B.can_cut beside.old place n }
        requires same { B.keeps beside.old beside.old }
        ensures place { IfOk result (λ more. more ≡ length (runs_of self.old)) }
        ensures done { OnOk result (CutsRun self.old self.new place n) }
        ensures beside { OnOk result (B.cuts beside.old beside.new place n) }
        ensures unchanged { OnErr result (IsSame self.old self.new) }
        ensures kept { OnErr result (B.keeps beside.old beside.new) }
    {
        self.lists.reserve(1)?;
        let more = self.lists.len();
        let first = self.lists.stretch(place).id;
        let id = Id {
            client: first.client,
            clock: first.clock + n,
        };
        cut_both(&mut self.index, beside, id, more, place, n)?;
        Ok(self.lists.cut(place, n))
    }

    /// Lets a run begin with the unit of an id: the run that has it is cut in front of it, if it is not
    /// its first. The place of the run is answered, or None where there is no such unit.
    pub fn cut_at(&mut self, id: Id) -> Result<Option<usize>, AllocError>
        ensures begins { IfOk result (λ at.
            IfSome at (λ place. HasUnit (runs_of self.new) place 0 id)) }
        ensures missing { IfOk result (λ at.
            IfNone at (next_clock self.old id.client.0 ≤ id.clock)) }
        ensures done { IsSame self.old self.new ⊎ CutsAt self.old self.new id }
        ensures unchanged { OnErr result (IsSame self.old self.new) }
    {
        let Some(found) = self.find(id) else {
            return Ok(None);
        };
        if found.before == 0 {
            return Ok(Some(found.place));
        }
        let place = self.cut(found.place, found.before)?;
        Ok(Some(place))
    }

    /// Adds the next run of its client to a list, at the place that the scan of its first unit finds,
    /// where there is room. Its left origin ends the run at `after`, or is absent at the front. Its
    /// place is answered. It takes no memory.
    pub fn add_run(&mut self, list: usize, after: Option<usize>, new: Stretch) -> usize
        requires list { list < count_of self.old }
        requires after { IfSome after (λ p. IsIn p (places_in self.old list)) }
        requires left { EndsLeft (runs_of self.old) new.left after }
        requires right { IsNoLater (runs_of self.old) (places_in self.old list) new.right }
        requires next { new.id.clock ≡ next_clock self.old new.id.client.0 }
        requires filled { 0 < new.len }
        requires fits { IsClock (new.id.clock + new.len) }
        requires room { 0 < room_for self.old new.id.client.0 }
        ensures place { result ≡ length (runs_of self.old) }
        ensures done { GrowsByRun self.old self.new list new }
        ensures rooms { (client : ℕ) → room_for self.old client ≤ room_for self.new client + 1 }
    {
        let behind = self.lists.scan(&self.index, list, &new, after);
        let place = self.lists.len();
        add_entry(&mut self.index, &new, place);
        self.lists.add(list, behind, new)
    }

    /// Adds the next run of its client in no list, as one that is gone or lost, where there is room.
    /// Its place is answered. It takes no memory.
    pub fn add_loose(&mut self, new: Stretch) -> usize
        requires next { new.id.clock ≡ next_clock self.old new.id.client.0 }
        requires filled { 0 < new.len }
        requires fits { IsClock (new.id.clock + new.len) }
        requires room { 0 < room_for self.old new.id.client.0 }
        ensures place { result ≡ length (runs_of self.old) }
        ensures done { AddsLoose self.old self.new new }
        ensures rooms { (client : ℕ) → room_for self.old client ≤ room_for self.new client + 1 }
    {
        let place = self.lists.len();
        add_entry(&mut self.index, &new, place);
        self.lists.add_loose(new)
    }

    /// Takes the last run of a client out of its list, if it is in one, and leaves it without units,
    /// so that its first clock is the client's next one again. Its place is answered, and stays. It
    /// takes no memory, and no room is lost.
    pub fn take_last(&mut self, client: Client) -> usize
        requires { 0 < next_clock self.old client.0 }
        ensures done { TakesLast self.old self.new client.0 result }
        ensures lists { AreLists self.old.linked }
        ensures rooms { (k : ℕ) → room_for self.old k ≤ room_for self.new k }
    {
        let last = self.index.pop(client);
        self.lists.take_out(last.place);
        last.place
    }

    /// Joins the last run to the one at a place, from where it goes on: see `Lists::joint`. No list and
    /// no client has other units than before. It takes no memory, and no room is lost.
    pub fn join_last(&mut self, place: usize)
        requires { IsJoint self.old.linked place }
        ensures done { JoinsLast self.old self.new place }
        ensures lists { AreLists self.new.linked }
        ensures rooms { (client : ℕ) → room_for self.old client ≤ room_for self.new client }
    {
        let last = self.lists.len() - 1;
        self.lists.are_lists();
        self.index.uncut(self.lists.stretch(last).id);
        self.lists.join_last(place);
    }
}
