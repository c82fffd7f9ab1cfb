//! Runs at places, and the lists that link them.

ghost use Rattle.std.specs.Prelude.{◌≡◌, ◌<◌, ◌≤◌, ◌+◌, ◌-◌, ◌^◌, ◌++◌, ◌∷◌, [], ℕ, None, Some, Option, length, IfSome, IfOk, OnOk, OnErr, IsOk, slice_set, vec_capacity};
ghost use Rattle.yd_ids.specs.declared.id.Id.{Id as Ident};
ghost use Rattle.yd_words.specs.Member.{IsIn};
ghost use Rattle.yd_chains.specs.Chain.{first_of, last_of, behind, before, put_behind};
ghost use Rattle.yd_scan.specs.Stretches.{stretch_at, IsNoLater, IsIndex, EndsLeft, HasOrigins};
ghost use Rattle.yd_scan.specs.Scanning.{IsScanPlace};
ghost use Rattle.yd_index.specs.Holding.{cut_stretches};
ghost use Rattle.yd_arena.specs.Lists.{list_at, AreLists, IsLoose, PutsBehind, TakesOut, emptied};
ghost use Rattle.yd_arena.specs.Joining.{IsJoint};

use crate::growing::{
    begin_scan, cut_stretch, grow_marks, grow_places, push_stretch, put_part, shorten, take_part,
};
use crate::joining::{continues, join_stretch};
use std::alloc::{AllocError, Global};
use std::marker::Model;
use yd_chains::Chains;
use yd_scan::{Finds, Stretch, scan};

/// The greatest number of runs, 2^53 - 1, which no machine reaches. A growth past it finds no memory.
pub const MOST: usize = 9007199254740991;

/// For how many runs there are places and marks at once. No contract rests on it.
const AHEAD: usize = 64;

/// Runs at places, as stretches, and lists of them that are kept by links. A run is in one list at
/// most, and one that is in no list need not have units.
///
/// Contracts see the runs by place, `stretches`, the places of each list in order, `lists`, and
/// `room`: how many more runs cannot fail.
#[derive(Drop)]
pub struct Lists {
    chains: Chains,
    stretches: Vec<Stretch>,
    marks: Vec<u64>,
    counter: u64,
}

impl Model for Lists {
    ghost use Rattle.std.specs.Prelude.{length, vec_capacity};
    ghost use Rattle.yd_arena.specs.declared.lists.TheConstants.{MOST};
    ghost use Rattle.yd_arena.specs.Lists.{Linked, room_left, AreKept};

    ghost Value = { Linked };

    ghost view = { λ it. record {
      stretches = it.stretches.items;
      lists = it.chains.chains;
      room = room_left (length it.stretches.items) it.chains.count (length it.marks.items)
          (vec_capacity it.stretches) MOST;
    } };

    ghost invariant = { λ it. AreKept it.chains it.stretches.items it.marks.items it.counter MOST };
}

impl Lists {
    /// No run, and no list. It takes no memory.
    pub fn new(alloc: Global) -> Lists
        ensures stretches { result.stretches ≡ [] }
        ensures lists { result.lists ≡ [] }
    {
        Lists {
            chains: Chains::new(alloc),
            stretches: Vec::new(alloc),
            marks: Vec::new(alloc),
            counter: 0,
        }
    }

    /// How many runs there are, which is the next place.
    pub fn len(&self) -> usize
        ensures { result ≡ length self.now.stretches }
    {
        self.stretches.len()
    }

    /// That no list has a place twice, and no two lists share one, as a fact for callers.
    pub fn are_lists(&self)
        ensures { AreLists self.now }
    {
        let _ = self.chains.len();
    }

    /// The run at a place.
    pub fn stretch(&self, place: usize) -> Stretch
        requires { place < length self.now.stretches }
        ensures { result ≡ stretch_at self.now.stretches place }
    {
        self.stretches[place]
    }

    /// The first place of a list, or None where it is empty.
    pub fn first(&self, list: usize) -> Option<usize>
        requires { list < length self.now.lists }
        ensures value { result ≡ first_of (list_at self.now list) }
        ensures lists { AreLists self.now }
    {
        self.chains.first(list)
    }

    /// The last place of a list, or None where it is empty.
    pub fn last(&self, list: usize) -> Option<usize>
        requires { list < length self.now.lists }
        ensures { result ≡ last_of (list_at self.now list) }
    {
        self.chains.last(list)
    }

    /// The place behind another in its list. None is at the end, and behind a place in no list.
    pub fn next(&self, place: usize) -> Option<usize>
        requires { place < length self.now.stretches }
        ensures loose { IsLoose self.now place → result ≡ None }
        ensures value { (k : ℕ) → k < length self.now.lists → IsIn place (list_at self.now k) →
            result ≡ first_of (behind (Some place) (list_at self.now k)) }
    {
        self.chains.next(place)
    }

    /// The place before another in its list. None is at the front, and before a place in no list.
    pub fn prev(&self, place: usize) -> Option<usize>
        requires { place < length self.now.stretches }
        ensures loose { IsLoose self.now place → result ≡ None }
        ensures value { (k : ℕ) → k < length self.now.lists → IsIn place (list_at self.now k) →
            result ≡ last_of (before place (list_at self.now k)) }
    {
        self.chains.prev(place)
    }

    /// The list that has a place, or None where none has it.
    pub fn list_of(&self, place: usize) -> Option<usize>
        requires { place < length self.now.stretches }
        ensures member { (k : ℕ) → k < length self.now.lists → IsIn place (list_at self.now k) →
            result ≡ Some k }
        ensures found { IfSome result (λ k.
            (k < length self.now.lists) × IsIn place (list_at self.now k)) }
        ensures lists { AreLists self.now }
    {
        self.chains.chain_of(place)
    }

    /// One list more, which is empty. Its number is how many there were before.
    pub fn add_list(&mut self) -> Result<usize, AllocError>
        ensures number { IfOk result (λ list. list ≡ length self.old.lists) }
        ensures lists { OnOk result (self.new.lists ≡ self.old.lists ++ [] ∷ []) }
        ensures unchanged { OnErr result (self.new.lists ≡ self.old.lists) }
        ensures stretches { self.new.stretches ≡ self.old.stretches }
        ensures room { self.new.room ≡ self.old.room }
    {
        let list = self.chains.add_chain()?;
        Ok(list)
    }

    /// Makes room for so many runs, or finds no memory for it. No room is lost.
    pub fn reserve(&mut self, more: usize) -> Result<(), AllocError>
        ensures stretches { self.new.stretches ≡ self.old.stretches }
        ensures lists { self.new.lists ≡ self.old.lists }
        ensures room { OnOk result (more ≤ self.new.room) }
        ensures kept { self.old.room ≤ self.new.room }
        ensures succeeds { more ≤ self.old.room → IsOk result }
    {
        let len = self.stretches.len();
        if more > MOST - len {
            return Err(AllocError);
        }
        let places = self.marks.len().min(self.chains.len());
        if more <= places.min(self.stretches.capacity()) - len {
            return Ok(());
        }
        self.stretches.reserve(more)?;
        // Some more places and marks, so that the next calls find them.
        let most = len + more.max(AHEAD);
        grow_marks(&mut self.marks, most)?;
        grow_places(&mut self.chains, most)?;
        Ok(())
    }

    /// Takes memory for so many runs ahead, or finds none. It is for what comes next: nothing changes
    /// that is told, and no room is lost.
    pub fn reserve_places(&mut self, more: usize) -> Result<(), AllocError>
        ensures stretches { self.new.stretches ≡ self.old.stretches }
        ensures lists { self.new.lists ≡ self.old.lists }
        ensures kept { self.old.room ≤ self.new.room }
    {
        self.stretches.reserve(more)?;
        self.marks.reserve(more)?;
        self.chains.reserve(more)?;
        Ok(())
    }

    /// Adds a run to a list, behind a place of it or at the front, where there is room. Its place is
    /// answered. It takes no memory, and a few steps.
    pub fn add(&mut self, list: usize, after: Option<usize>, new: Stretch) -> usize
        requires list { list < length self.old.lists }
        requires after { IfSome after (λ p. IsIn p (list_at self.old list)) }
        requires filled { 0 < new.len }
        requires room { 0 < self.old.room }
        ensures place { result ≡ length self.old.stretches }
        ensures stretches { self.new.stretches ≡ self.old.stretches ++ new ∷ [] }
        ensures lists { self.new.lists ≡
            slice_set self.old.lists list (put_behind after result (list_at self.old list)) }
        ensures room { self.old.room ≤ self.new.room + 1 }
    {
        let place = self.stretches.len();
        self.chains.insert(list, after, place);
        push_stretch(&mut self.stretches, new);
        place
    }

    /// Adds a run that is in no list, where there is room. Its place is answered. It takes no memory.
    pub fn add_loose(&mut self, new: Stretch) -> usize
        requires room { 0 < self.old.room }
        ensures place { result ≡ length self.old.stretches }
        ensures stretches { self.new.stretches ≡ self.old.stretches ++ new ∷ [] }
        ensures lists { self.new.lists ≡ self.old.lists }
        ensures room { self.old.room ≤ self.new.room + 1 }
    {
        let place = self.stretches.len();
        push_stretch(&mut self.stretches, new);
        place
    }

    /// Cuts a run in two behind so many units, where there is room. The second part goes behind the
    /// first in its list, if it is in one, and its place is answered. It takes no memory.
    pub fn cut(&mut self, place: usize, n: u64) -> usize
        requires place { place < length self.old.stretches }
        requires before { 0 < n }
        requires within { n < (stretch_at self.old.stretches place).len }
        requires fits { (stretch_at self.old.stretches place).id.clock + n < 18446744073709551616 }
        requires room { 0 < self.old.room }
        ensures place { result ≡ length self.old.stretches }
        ensures stretches { self.new.stretches ≡ cut_stretches self.old.stretches place n }
        ensures lists { PutsBehind self.old.lists self.new.lists place result }
        ensures sound { AreLists self.old }
        ensures room { self.old.room ≤ self.new.room + 1 }
    {
        let more = self.stretches.len();
        put_part(&mut self.chains, place, more);
        cut_stretch(&mut self.stretches, place, n);
        more
    }

    /// Takes a run out of its list, if it is in one, and leaves it without units. Its place stays,
    /// and is in no list. It takes no memory, and no room is lost.
    pub fn take_out(&mut self, place: usize)
        requires { place < length self.old.stretches }
        ensures stretches { self.new.stretches ≡ emptied self.old.stretches place }
        ensures lists { TakesOut self.old.lists self.new.lists place }
        ensures sound { AreLists self.old }
        ensures room { self.old.room ≤ self.new.room }
    {
        take_part(&mut self.chains, place);
        shorten(&mut self.stretches, place, 0);
    }

    /// The place before the last one in its list, where the last run goes on where the run there ends:
    /// at its next clock, behind its last unit, and with its right origin.
    pub fn joint(&self) -> Option<usize>
        ensures { IfSome result (IsJoint self.now) }
    {
        let last = self.stretches.len().checked_sub(1)?;
        self.chains.chain_of(last)?;
        let place = self.chains.prev(last)?;
        if continues(self.stretches[place], self.stretches[last]) {
            Some(place)
        } else {
            None
        }
    }

    /// Joins the last run to the one at a place, where it goes on where that ends: see `joint`. Cut
    /// there again, all is as it was. It takes no memory, and no room is lost.
    pub fn join_last(&mut self, place: usize)
        requires joint { IsJoint self.old place }
        requires fits { (stretch_at self.old.stretches place).len
            + (stretch_at self.old.stretches (length self.old.stretches - 1)).len < 2 ^ 64 }
        ensures place { place < length self.new.stretches }
        ensures stretches { self.old.stretches ≡ cut_stretches self.new.stretches place
            (stretch_at self.old.stretches place).len }
        ensures lists { PutsBehind self.new.lists self.old.lists place
            (length self.new.stretches) }
        ensures before { AreLists self.old }
        ensures sound { AreLists self.new }
        ensures room { self.old.room ≤ self.new.room }
    {
        take_part(&mut self.chains, self.stretches.len() - 1);
        join_stretch(&mut self.stretches, place);
        // No list has a place twice then either.
        let _ = self.chains.len();
    }

    /// The place behind which a new run goes in a list: that which the scan of its first unit finds
    /// (Yjs 13, `integrate`). Its left origin ends the run at `after`, or is absent at the front. It
    /// takes no memory, and time with the runs that it scans.
    pub fn scan<I: Finds>(
        &mut self,
        index: &I,
        list: usize,
        new: &Stretch,
        after: Option<usize>,
    ) -> Option<usize>
        requires list { list < length self.old.lists }
        requires index { IsIndex (I.places index.now) self.old.stretches }
        requires after { IfSome after (λ p. IsIn p (list_at self.old list)) }
        requires left { EndsLeft self.old.stretches new.now.left after }
        requires right { IsNoLater self.old.stretches (list_at self.old list) new.now.right }
        ensures place { (left right : Ident → Option Ident) →
            HasOrigins left right self.old.stretches (list_at self.old list) new.now →
            IsScanPlace self.old.stretches (list_at self.old list) new.now result left right }
        ensures within { IfSome result (λ p. IsIn p (list_at self.old list)) }
        ensures lists { AreLists self.old }
        ensures unchanged { self.new ≡ self.old }
    {
        begin_scan(&mut self.marks, &mut self.counter);
        scan(
            &self.chains,
            list,
            &self.stretches,
            index,
            &mut self.marks,
            &mut self.counter,
            new,
            after,
        )
    }
}
