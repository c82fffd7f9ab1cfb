//! What the runs of a store hold.

ghost use Rattle.std.specs.Prelude.{◌≡◌, ◌<◌, ◌≤◌, ◌+◌, ◌++◌, ◌∷◌, [], None, true, false, slice_set, length, IfOk, OnOk, OnErr, IsOk, option_copied};
ghost use Rattle.yd_arena.specs.Arena.{runs_of, next_clock};
ghost use Rattle.yd_arena.specs.Marks.{IsBorder};
ghost use Rattle.yd_store.specs.Contents.{told, told_of, run_at, CanCut, CutsTold, KeepsTold};
ghost use Rattle.yd_store.specs.Joining.{JoinsTold};
ghost use Rattle.yd_store.specs.Lowering.{told_down, LowersSpan};
ghost use Rattle.yd_store.specs.Halves.{told_as};

use crate::cutting::{cut_told, drop_told, push_told, put_text};
use crate::joining::join_told;
use crate::level::{Level, lower_told};
use std::alloc::{AllocError, Global};
use std::marker::Model;
use yd_arena::{Arena, Beside};
use yd_ids::{Id, Span};
use yd_ops::{NoMemory, Run};
use yd_units::Units;

/// The run of each place, where it is told. A gone one has none.
///
/// Contracts see what each place tells, `rows`, and `room`: how many more cannot fail.
#[derive(Drop)]
pub struct Contents {
    runs: Vec<Option<Run>>,
}

impl Model for Contents {
    ghost use Rattle.std.specs.Prelude.{◌-◌, length, vec_capacity};
    ghost use Rattle.yd_store.specs.Contents.{Contented};
    ghost use Rattle.yd_any.specs.contracts.any_value.AnyList as any_list;
    ghost use Rattle.yd_any.specs.contracts.json_value.Json as json;
    ghost use Rattle.std.specs.Coded.{codes};

    ghost Value = { Contented };

    ghost coded = { Prim.hlevel (codes, json.the_row.coded, any_list.the_row.coded) };

    ghost view = { λ it. record {
      rows = it.runs.items;
      room = vec_capacity it.runs - length it.runs.items;
    } };
}

impl Contents {
    /// No run. It takes no memory.
    pub fn new(alloc: Global) -> Contents
        ensures { result.rows ≡ [] }
    {
        Contents {
            runs: Vec::new(alloc),
        }
    }

    /// The run at a place, lent, or None where it is gone.
    pub fn run(&self, place: usize) -> Option<&Run>
        requires { place < length self.now.rows }
        ensures { told (option_copied result) ≡ run_at (told_of self.now) place }
    {
        self.runs[place].as_ref()
    }

    /// Makes room for so many runs, or finds no memory for it. No room is lost.
    pub fn reserve(&mut self, more: usize) -> Result<(), AllocError>
        ensures rows { self.new.rows ≡ self.old.rows }
        ensures room { OnOk result (more ≤ self.new.room) }
        ensures kept { self.old.room ≤ self.new.room }
        ensures succeeds { more ≤ self.old.room → IsOk result }
    {
        self.runs.reserve(more)?;
        Ok(())
    }

    /// Adds what the next place tells, where there is room. It takes no memory.
    pub fn add(&mut self, run: Option<Run>)
        requires { 0 < self.old.room }
        ensures rows { self.new.rows ≡ self.old.rows ++ run ∷ [] }
        ensures room { self.old.room ≤ self.new.room + 1 }
    {
        push_told(&mut self.runs, run);
    }

    /// Joins what the last place tells to what another tells, where both are texts or deleted units and
    /// one goes on where the other ends. Then the last place is there no more. It takes time of what is
    /// joined, and no room is lost.
    pub fn join_last(&mut self, place: usize) -> Result<bool, NoMemory>
        requires { place + 1 < length self.old.rows }
        ensures joined { IfOk result (λ joined. joined ≡ true →
            JoinsTold (told_of self.old) (told_of self.new) place) }
        ensures kept { IfOk result (λ joined. joined ≡ false →
            told_of self.new ≡ told_of self.old) }
        ensures unchanged { OnErr result (told_of self.new ≡ told_of self.old) }
        ensures room { self.old.room ≤ self.new.room }
    {
        join_told(&mut self.runs, place)
    }

    /// Lets a place tell nothing, as one that is gone. It takes no memory.
    pub fn empty(&mut self, place: usize)
        requires { place < length self.old.rows }
        ensures rows { self.new.rows ≡ slice_set self.old.rows place None }
        ensures room { self.new.room ≡ self.old.room }
    {
        drop_told(&mut self.runs, place);
    }

    /// Tells the units of a span down to a level, run by run. The span is held, and parts no run.
    /// It takes no memory.
    pub fn lower(&mut self, arena: &Arena, span: Span, level: Level)
        requires each { length self.old.rows ≡ length (runs_of arena.now) }
        requires held { span.clock + span.len ≤ next_clock arena.now span.client.0 }
        requires front { IsBorder (runs_of arena.now) span.client.0 span.clock }
        requires back { IsBorder (runs_of arena.now) span.client.0 (span.clock + span.len) }
        ensures lowered { LowersSpan (runs_of arena.now) level
            (told_of self.old) (told_of self.new) span }
        ensures room { self.new.room ≡ self.old.room }
    {
        let mut clock = span.clock;
        let mut left = span.len;
        while left > 0 {
            let id = Id {
                client: span.client,
                clock,
            };
            let Some(found) = arena.find(id) else {
                unreachable!();
            };
            self.lower_run(found.place, level);
            let len = arena.lists().stretch(found.place).len;
            clock += len;
            left -= len;
        }
    }

    /// U+FFFD, in memory of its own.
    pub fn replacement(&self) -> Result<Units, NoMemory>
        ensures { IfOk result (λ units. units ≡ 0xFFFD ∷ []) }
    {
        let mut units = Vec::new(*self.runs.allocator());
        units.push(0xFFFD)?;
        Ok(Units::of_units(units))
    }

    /// Lets the run at a place hold a text, if it is told. It takes no memory.
    pub fn put_text(&mut self, place: usize, units: Units)
        requires { place < length self.old.rows }
        ensures told { told_of self.new ≡ slice_set (told_of self.old) place
            (told_as units (run_at (told_of self.old) place)) }
        ensures len { length self.new.rows ≡ length self.old.rows }
        ensures room { self.new.room ≡ self.old.room }
    {
        put_text(&mut self.runs, place, units);
    }

    /// Tells the run at a place down to a level.
    fn lower_run(&mut self, place: usize, level: Level)
        requires { place < length self.old.rows }
        ensures told { told_of self.new ≡ slice_set (told_of self.old) place
            (told_down level (run_at (told_of self.old) place)) }
        ensures len { length self.new.rows ≡ length self.old.rows }
        ensures room { self.new.room ≡ self.old.room }
    {
        lower_told(&mut self.runs, place, level);
    }
}

impl Beside for Contents {
    ghost can_cut = { λ it place n. CanCut it place n };

    ghost cuts = { λ old new place n. CutsTold old new place n };

    ghost keeps = { λ old new. KeepsTold old new };

    fn cut_beside(&mut self, place: usize, n: u64) -> Result<(), AllocError> {
        cut_told(&mut self.runs, place, n)
    }
}
