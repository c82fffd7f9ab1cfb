//! The store.

ghost use Rattle.std.specs.Prelude.{◌≡◌, ◌⊎◌, ◌<◌, ◌≤◌, ◌+◌, ◌++◌, ◌∷◌, [], ℕ, Some, None, true, false, length, get_or, IfSome, IfNone, IfOk, IfErr, OnOk, OnErr, IsOk, option_copied};
ghost use Rattle.yd_ids.specs.Id.{IsClock};
ghost use Rattle.yd_words.specs.Member.{IsIn};
ghost use Rattle.yd_chains.specs.Chain.{first_of, last_of, behind, before};
ghost use Rattle.yd_ops.specs.Value.{len_of};
ghost use Rattle.yd_ops.specs.View.{content_value, run_value};
ghost use Rattle.yd_scan.specs.Stretches.{IsNoLater, EndsLeft};
ghost use Rattle.yd_arena.specs.Lists.{AreLists, IsLoose};
ghost use Rattle.yd_arena.specs.Arena.{runs_of, count_of, places_in, next_clock, HasUnit, IsArena};
ghost use Rattle.yd_arena.specs.Marks.{AreCounted, mark_at, IsBorder, MarksSpan};
ghost use Rattle.yd_store.specs.Contents.{told, told_of, run_at};
ghost use Rattle.yd_store.specs.Store.{spare_of, AreTold, AreNoted, CanCount, IsKept, KeepsRuns, SplitsAt, StandsIn, AddsRun};
ghost use Rattle.yd_store.specs.Units.{KeepsUnits, AddsUnits};
ghost use Rattle.yd_store.specs.Taking.{TakesBack, AreDead};

mod joining;
mod outside;
mod placing;
mod telling;

use crate::contents::Contents;
use crate::fault::Unplaced;
use crate::parts::{add_list_parts, is_sound, reserve_ahead, reserve_parts};
use crate::rights::{kept_right, stands_in};
use std::alloc::Global;
use std::marker::Model;
use yd_arena::{Arena, Found, Marks};
use yd_ids::{Client, Id, Span};
use yd_ops::{NoMemory, Run};

/// The runs that are held, at places: in lists by their numbers, or in none where they are gone or
/// lost. Each has a mark of deletion and, unless it is gone, what it holds.
///
/// Contracts see its three parts: `placed`, the runs as the order sees them with their lists and
/// their index, `marks`, and `contents`. Where a call speaks of spare, that is how many more runs
/// of a client cannot fail.
#[derive(Drop)]
pub struct Store {
    arena: Arena,
    marks: Marks,
    contents: Contents,
}

impl Model for Store {
    ghost use Rattle.yd_store.specs.Store.{Stored, IsStore};
    ghost use Rattle.yd_any.specs.contracts.any_value.AnyList as any_list;
    ghost use Rattle.yd_any.specs.contracts.json_value.Json as json;
    ghost use Rattle.std.specs.Coded.{codes};

    ghost Value = { Stored };

    ghost coded = { Prim.hlevel (codes, json.the_row.coded, any_list.the_row.coded) };

    ghost view = { λ it. record { placed = it.arena; marks = it.marks; contents = it.contents } };

    ghost invariant = { λ it. IsStore it.arena it.marks it.contents };
}

impl Store {
    /// No run, and no list. It takes no memory.
    pub fn new(alloc: Global) -> Store
        ensures runs { runs_of result.placed ≡ [] }
        ensures lists { count_of result.placed ≡ 0 }
        ensures clocks { (client : ℕ) → next_clock result.placed client ≡ 0 }
    {
        Store {
            arena: Arena::new(alloc),
            marks: Marks::new(alloc),
            contents: Contents::new(alloc),
        }
    }

    /// The clock of the client's next unit.
    pub fn next_clock(&self, client: Client) -> u64
        ensures value { result ≡ next_clock self.now.placed client.0 }
        ensures bound { IsClock result }
    {
        self.arena.next_clock(client)
    }

    /// The place of the run with a unit, and how many of its units stand before it. None is just
    /// from the client's next clock on.
    pub fn find(&self, id: Id) -> Option<Found>
        ensures found { IfSome result (λ at.
            HasUnit (runs_of self.now.placed) at.place at.before id) }
        ensures missing { IfNone result (next_clock self.now.placed id.client.0 ≤ id.clock) }
    {
        self.arena.find(id)
    }

    /// How many places there are, which are the numbers below: those of all runs, also of runs that
    /// were taken out and have no units.
    pub fn len(&self) -> usize
        ensures { result ≡ length (runs_of self.now.placed) }
    {
        self.arena.lists().len()
    }

    /// Whether a unit stands in a list.
    pub fn stands_in(&self, list: usize, id: Id) -> bool
        requires { list < count_of self.now.placed }
        ensures here { result ≡ true → StandsIn self.now.placed list id }
        ensures other { result ≡ false → StandsIn self.now.placed list id → ⊥ }
    {
        stands_in(&self.arena, list, id)
    }

    /// That the index finds the runs, no list has a place twice, each list counts the live units of
    /// its runs, and marks say of runs what their contents say, as facts for callers.
    pub fn is_sound(&self)
        ensures arena { IsArena self.now.placed.lines (runs_of self.now.placed) }
        ensures lists { AreLists self.now.placed.linked }
        ensures told { AreTold (runs_of self.now.placed) (told_of self.now.contents) }
        ensures counted { AreCounted self.now.placed.linked self.now.marks.rows self.now.marks.live }
        ensures noted { AreNoted self.now.marks.rows (told_of self.now.contents) }
    {
        is_sound(&self.arena);
    }

    /// The first place of a list, or None where it is empty.
    pub fn first(&self, list: usize) -> Option<usize>
        requires { list < count_of self.now.placed }
        ensures { result ≡ first_of (places_in self.now.placed list) }
    {
        self.arena.lists().first(list)
    }

    /// The last place of a list, or None where it is empty.
    pub fn last(&self, list: usize) -> Option<usize>
        requires { list < count_of self.now.placed }
        ensures { result ≡ last_of (places_in self.now.placed list) }
    {
        self.arena.lists().last(list)
    }

    /// The place behind another in its list. None is at the end, and behind a place in no list.
    pub fn next(&self, place: usize) -> Option<usize>
        requires { place < length (runs_of self.now.placed) }
        ensures loose { IsLoose self.now.placed.linked place → result ≡ None }
        ensures value { (k : ℕ) → k < count_of self.now.placed →
            IsIn place (places_in self.now.placed k) →
            result ≡ first_of (behind (Some place) (places_in self.now.placed k)) }
    {
        self.arena.lists().next(place)
    }

    /// The place before another in its list. None is at the front, and before a place in no list.
    pub fn prev(&self, place: usize) -> Option<usize>
        requires { place < length (runs_of self.now.placed) }
        ensures loose { IsLoose self.now.placed.linked place → result ≡ None }
        ensures value { (k : ℕ) → k < count_of self.now.placed →
            IsIn place (places_in self.now.placed k) →
            result ≡ last_of (before place (places_in self.now.placed k)) }
    {
        self.arena.lists().prev(place)
    }

    /// The number of the list that has a place, or None where none has it.
    pub fn list_of(&self, place: usize) -> Option<usize>
        requires { place < length (runs_of self.now.placed) }
        ensures member { (k : ℕ) → k < count_of self.now.placed →
            IsIn place (places_in self.now.placed k) → result ≡ Some k }
        ensures found { IfSome result (λ k. (k < count_of self.now.placed) ×
            IsIn place (places_in self.now.placed k)) }
    {
        self.arena.lists().list_of(place)
    }

    /// The run at a place, lent, or None where it is gone.
    pub fn run_of(&self, place: usize) -> Option<&Run>
        requires { place < length (runs_of self.now.placed) }
        ensures { told (option_copied result) ≡ run_at (told_of self.now.contents) place }
    {
        self.contents.run(place)
    }

    /// Whether the units of the run at a place are deleted.
    pub fn is_deleted(&self, place: usize) -> bool
        requires { place < length (runs_of self.now.placed) }
        ensures { result ≡ (mark_at self.now.marks.rows place).deleted }
    {
        self.marks.mark(place).deleted
    }

    /// How many units of a list are live: those that counted in lengths when they were added, and
    /// are not marked as deleted. `lower` marks none: who spells units deleted marks them besides.
    /// Then it is the number of the list's live operations (`law::live_is_counted`).
    pub fn live(&self, list: usize) -> u64
        requires { list < count_of self.now.placed }
        ensures { result ≡ get_or self.now.marks.live list 0 }
    {
        self.marks.live(list)
    }

    /// One list more, which is empty. Its number is how many there were before.
    pub fn add_list(&mut self) -> Result<usize, NoMemory>
        ensures number { IfOk result (λ list. list ≡ count_of self.old.placed) }
        ensures lists { OnOk result (self.new.placed.linked.lists ≡
            self.old.placed.linked.lists ++ [] ∷ []) }
        ensures live { OnOk result (self.new.marks.live ≡ self.old.marks.live ++ 0 ∷ []) }
        ensures unchanged { OnErr result (IsKept self.old self.new) }
        ensures runs { KeepsRuns self.old.placed self.old.marks self.new.placed self.new.marks }
        ensures contents { self.new.contents ≡ self.old.contents }
        ensures spare { (client : ℕ) → spare_of self.new client ≡ spare_of self.old client }
    {
        let list = add_list_parts(&mut self.arena, &mut self.marks)?;
        Ok(list)
    }

    /// Makes room for so many runs of a client, or finds no memory for it. No spare is lost.
    pub fn reserve(&mut self, client: Client, more: usize) -> Result<(), NoMemory>
        ensures kept { IsKept self.old self.new }
        ensures spare { OnOk result (more ≤ spare_of self.new client.0) }
        ensures spares { (other : ℕ) → spare_of self.old other ≤ spare_of self.new other }
    {
        reserve_parts(
            &mut self.arena,
            &mut self.marks,
            &mut self.contents,
            client,
            more,
        )?;
        Ok(())
    }

    /// Takes memory for so many runs ahead, of whichever clients, or finds none. It is for what comes
    /// next: nothing changes that is told, and no spare is lost.
    pub fn reserve_places(&mut self, more: usize) -> Result<(), NoMemory>
        ensures kept { IsKept self.old self.new }
        ensures spares { (client : ℕ) → spare_of self.old client ≤ spare_of self.new client }
    {
        reserve_ahead(&mut self.arena, &mut self.marks, &mut self.contents, more)?;
        Ok(())
    }

    /// Lets a run begin with a unit that is held: the run that has it is cut in front of it, if it
    /// is not its first. The place of the run is answered. Nothing is said of spare after it.
    pub fn split(&mut self, id: Id) -> Result<usize, NoMemory>
        requires held { id.clock < next_clock self.old.placed id.client.0 }
        ensures begins { IfOk result (λ place. HasUnit (runs_of self.new.placed) place 0 id) }
        ensures done { OnOk result (IsKept self.old self.new ⊎ SplitsAt self.old self.new id) }
        ensures units { KeepsUnits self.old self.new }
        ensures unchanged { OnErr result (IsKept self.old self.new) }
    {
        let Some(found) = self.find(id) else {
            unreachable!();
        };
        if found.before == 0 {
            return Ok(found.place);
        }
        self.split_found(id, found)
    }

    /// Adds the next run of its client to a list, live, where the integration scan of its first
    /// unit puts it. Its left origin ends the run at `after`, or is absent at the front, and its
    /// right origin begins a run, if it stands in the list. Its place is answered. While the client
    /// has spare, this takes no memory; where it finds none, or the list would have 2^64 live units or
    /// more, the run comes back, and nothing has changed.
    pub fn add_run(
        &mut self,
        run: Run,
        list: usize,
        after: Option<usize>,
    ) -> Result<usize, Unplaced>
        requires list { list < count_of self.old.placed }
        requires after { IfSome after (λ p. IsIn p (places_in self.old.placed list)) }
        requires left { EndsLeft (runs_of self.old.placed) run.left after }
        requires right { IsNoLater (runs_of self.old.placed)
            (places_in self.old.placed list) run.right }
        requires next { run.id.clock ≡ next_clock self.old.placed run.id.client.0 }
        requires filled { 0 < len_of (content_value run.content) }
        requires fits { IsClock (run.id.clock + len_of (content_value run.content)) }
        ensures place { IfOk result (λ place. place ≡ length (runs_of self.old.placed)) }
        ensures done { OnOk result (AddsRun self.old self.new list (run_value run)) }
        ensures units { OnOk result (AddsUnits self.old self.new list (run_value run)) }
        ensures value_returned { IfErr result (λ fault. run_value fault.0 ≡ run_value run) }
        ensures unchanged { OnErr result (IsKept self.old self.new) }
        ensures spares { (client : ℕ) → spare_of self.old client ≤ spare_of self.new client + 1 }
        ensures succeeds { 0 < spare_of self.old run.id.client.0 →
            CanCount self.old list (run_value run) → IsOk result }
    {
        let right = kept_right(&self.arena, list, run.right);
        self.add_kept(run, list, after, right)
    }

    /// A list has fewer than 2^64 live units with those of a run.
    pub(crate) fn can_count(&self, list: usize, run: &Run) -> bool
        requires { list < count_of self.now.placed }
        ensures fits { result ≡ true → CanCount self.now list (run_value run.now) }
        ensures full { result ≡ false → CanCount self.now list (run_value run.now) → ⊥ }
    {
        self.marks.live(list) <= u64::MAX - run.len()
    }

    /// Marks the units of a span as deleted, run by run. The span is held, and parts no run: see
    /// `split`. What was marked stays so, and nothing else is marked. It takes no memory.
    pub fn mark_deleted(&mut self, span: Span)
        requires held { span.clock + span.len ≤ next_clock self.old.placed span.client.0 }
        requires front { IsBorder (runs_of self.old.placed) span.client.0 span.clock }
        requires back { IsBorder (runs_of self.old.placed) span.client.0 (span.clock + span.len) }
        ensures marked { MarksSpan (runs_of self.old.placed)
            self.old.marks.rows self.new.marks.rows span }
        ensures placed { self.new.placed ≡ self.old.placed }
        ensures contents { self.new.contents ≡ self.old.contents }
        ensures spare { (client : ℕ) → spare_of self.new client ≡ spare_of self.old client }
    {
        self.marks.mark_deleted(&self.arena, span);
    }

    /// Takes the last run of a client out, where its runs from a clock on are marked as deleted.
    /// The client's next clock is answered. It takes no memory, and no spare is lost.
    pub(crate) fn take_last(&mut self, client: Client, clock: u64) -> u64
        requires high { clock < next_clock self.old.placed client.0 }
        requires border { IsBorder (runs_of self.old.placed) client.0 clock }
        requires dead { AreDead self.old client.0 clock }
        ensures next { result ≡ next_clock self.new.placed client.0 }
        ensures above { clock ≤ result }
        ensures lower { result < next_clock self.old.placed client.0 }
        ensures taken { TakesBack self.old self.new client.0 result }
        ensures dead { AreDead self.new client.0 clock }
        ensures spares { (k : ℕ) → spare_of self.old k ≤ spare_of self.new k }
    {
        is_sound(&self.arena);
        let place = self.arena.take_last(client);
        self.contents.empty(place);
        self.arena.next_clock(client)
    }
}
