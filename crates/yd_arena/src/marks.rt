//! The marks of an arena's runs, and the counts of its lists.

ghost use Rattle.std.specs.Prelude.{◌≡◌, ◌<◌, ◌≤◌, ◌+◌, ◌-◌, ◌^◌, ◌++◌, ◌∷◌, [], length, take, IfSome, OnOk, OnErr, IsOk, get_or, slice_set};
ghost use Rattle.yd_index.specs.Lines.{next_of};
ghost use Rattle.yd_arena.specs.Arena.{runs_of, next_clock};
ghost use Rattle.yd_arena.specs.Marks.{mark_at, as_deleted, live_of as live_number, with_more, AreCounted, IsBorder, MarksSpan};

use crate::counting::{count_less, count_more, live_units, push_mark, set_deleted};
use crate::mark::{Mark, live_of};
use crate::{Arena, Lists};
use std::alloc::{AllocError, Global};
use std::marker::Model;
use yd_ids::{Id, Span};

/// A mark for each run of an arena, by place, and for each list how many of its units are live: those
/// that count and are not deleted.
///
/// Contracts see the marks, `rows`, the counts, `live`, and `room`: how many more marks cannot fail.
#[derive(Drop)]
pub struct Marks {
    rows: Vec<Mark>,
    live: Vec<u64>,
}

impl Model for Marks {
    ghost use Rattle.std.specs.Prelude.{◌-◌, length, vec_capacity};
    ghost use Rattle.yd_arena.specs.Marks.{Marked};

    ghost Value = { Marked };

    ghost view = { λ it. record {
      rows = it.rows.items;
      live = it.live.items;
      room = vec_capacity it.rows - length it.rows.items;
    } };
}

impl Marks {
    /// No run, and no list. It takes no memory.
    pub fn new(alloc: Global) -> Marks
        ensures rows { result.rows ≡ [] }
        ensures live { result.live ≡ [] }
    {
        Marks {
            rows: Vec::new(alloc),
            live: Vec::new(alloc),
        }
    }

    /// The mark of the run at a place.
    pub fn mark(&self, place: usize) -> Mark
        requires { place < length self.now.rows }
        ensures { result ≡ mark_at self.now.rows place }
    {
        self.rows[place]
    }

    /// How many units of a list are live.
    pub fn live(&self, list: usize) -> u64
        requires { list < length self.now.live }
        ensures { result ≡ get_or self.now.live list 0 }
    {
        self.live[list]
    }

    /// One list more, without units.
    pub fn add_list(&mut self) -> Result<(), AllocError>
        ensures live { OnOk result (self.new.live ≡ self.old.live ++ 0 ∷ []) }
        ensures unchanged { OnErr result (self.new.live ≡ self.old.live) }
        ensures rows { self.new.rows ≡ self.old.rows }
        ensures room { self.new.room ≡ self.old.room }
    {
        self.live.push(0)?;
        Ok(())
    }

    /// Takes the last list's count away.
    pub fn drop_list(&mut self)
        ensures live { self.new.live ≡ take (length self.old.live - 1) self.old.live }
        ensures rows { self.new.rows ≡ self.old.rows }
        ensures room { self.new.room ≡ self.old.room }
    {
        let n = self.live.len();
        self.live.truncate(n.saturating_sub(1));
    }

    /// Makes room for the marks of so many runs, or finds no memory for it. No room is lost.
    pub fn reserve(&mut self, more: usize) -> Result<(), AllocError>
        ensures rows { self.new.rows ≡ self.old.rows }
        ensures live { self.new.live ≡ self.old.live }
        ensures room { OnOk result (more ≤ self.new.room) }
        ensures kept { self.old.room ≤ self.new.room }
        ensures succeeds { more ≤ self.old.room → IsOk result }
    {
        self.rows.reserve(more)?;
        Ok(())
    }

    /// Adds the mark of a run of so many units, which is in a list or in none, where there is room and the
    /// list has fewer than 2^64 live units then. It takes no memory.
    pub fn add(&mut self, list: Option<usize>, len: u64, mark: Mark)
        requires list { IfSome list (λ k. k < length self.old.live) }
        requires fits { IfSome list (λ k. get_or self.old.live k 0 + len < 2 ^ 64) }
        requires room { 0 < self.old.room }
        ensures rows { self.new.rows ≡ self.old.rows ++ mark ∷ [] }
        ensures live { self.new.live ≡ with_more self.old.live list (live_number mark len) }
        ensures room { self.old.room ≤ self.new.room + 1 }
    {
        count_more(&mut self.live, list, live_of(mark, len));
        push_mark(&mut self.rows, mark);
    }

    /// Adds the mark of the second part of a run that is cut, where there is room: that of the run. It
    /// takes no memory.
    pub fn cut(&mut self, place: usize)
        requires place { place < length self.old.rows }
        requires room { 0 < self.old.room }
        ensures rows { self.new.rows ≡ self.old.rows ++ mark_at self.old.rows place ∷ [] }
        ensures live { self.new.live ≡ self.old.live }
        ensures room { self.old.room ≤ self.new.room + 1 }
    {
        let mark = self.rows[place];
        push_mark(&mut self.rows, mark);
    }

    /// Takes the last mark away, where its run is one with another. It takes no memory.
    pub fn drop_last(&mut self)
        ensures rows { self.new.rows ≡ take (length self.old.rows - 1) self.old.rows }
        ensures live { self.new.live ≡ self.old.live }
        ensures room { self.old.room ≤ self.new.room }
    {
        self.rows.pop();
    }

    /// Marks the units of a span as deleted, run by run. The span is held, and parts no run. What was
    /// marked stays so, and nothing else is marked (`law::marks_are_units`). It takes no memory.
    pub fn mark_deleted(&mut self, arena: &Arena, span: Span)
        requires counted { AreCounted arena.now.linked self.old.rows self.old.live }
        requires held { span.clock + span.len ≤ next_clock arena.now span.client.0 }
        requires front { IsBorder (runs_of arena.now) span.client.0 span.clock }
        requires back { IsBorder (runs_of arena.now) span.client.0 (span.clock + span.len) }
        ensures marked { MarksSpan (runs_of arena.now) self.old.rows self.new.rows span }
        ensures counted { AreCounted arena.now.linked self.new.rows self.new.live }
        ensures room { self.new.room ≡ self.old.room }
    {
        let mut clock = span.clock;
        let mut left = span.len;
        while left > 0 {
            let id = Id {
                client: span.client,
                clock,
            };
            let Some(found) = arena.find(id) else {
                unreachable!();
            };
            self.mark_run(arena.lists(), found.place);
            let len = arena.lists().stretch(found.place).len;
            clock += len;
            left -= len;
        }
    }

    /// Marks the units of the run at a place as deleted.
    fn mark_run(&mut self, lists: &Lists, place: usize)
        requires counted { AreCounted lists.now self.old.rows self.old.live }
        requires place { place < length lists.now.stretches }
        ensures rows { self.new.rows ≡
            slice_set self.old.rows place (as_deleted (mark_at self.old.rows place)) }
        ensures counted { AreCounted lists.now self.new.rows self.new.live }
        ensures room { self.new.room ≡ self.old.room }
    {
        let len = live_units(&self.rows, lists, place);
        count_less(&mut self.live, lists.list_of(place), len);
        set_deleted(&mut self.rows, place);
    }
}
