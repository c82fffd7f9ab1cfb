//! A walk through a list, from both of its ends.

ghost use Rattle.std.specs.Prelude.{◌≡◌, ◌++◌, ◌<◌, List, [], IfSome, IfNone, MatchOption};
ghost use Rattle.yd_ops.specs.View.{content_value};
ghost use Rattle.yd_ops.specs.Value.{len_of};
ghost use Rattle.yd_words.specs.Member.{IsIn};
ghost use Rattle.yd_arena.specs.Lists.{AreLists};
ghost use Rattle.yd_arena.specs.Arena.{runs_of, count_of, places_in};
ghost use Rattle.yd_store.specs.Contents.{told_of};
ghost use Rattle.yd_store.specs.Store.{AreTold};
ghost use Rattle.yd_listing.specs.Lending.{Lent, HasNoGone, units_of_run, lent_in, lent_from_place, units_left};

use crate::lent::{LentRun, lent_run};
use crate::row::{Ends, all, all_from, without_first, without_last};
use std::marker::Model;
use yd_store::Store;

/// The units of a list in order, seen as those that are still to come.
#[derive(Drop)]
pub struct ListWalk<'a> {
    store: &'a Store,
    list: usize,
    ends: Option<Ends>,
}

impl<'a> Model for ListWalk<'a> {
    ghost use Rattle.yd_listing.specs.Lending.{Walk, IsWalk};
    ghost use Rattle.yd_any.specs.contracts.any_value.AnyList as any_list;
    ghost use Rattle.yd_any.specs.contracts.json_value.Json as json;
    ghost use Rattle.std.specs.Coded.{codes};

    ghost Value = { Walk };

    ghost coded = { Prim.hlevel (codes, json.the_row.coded, any_list.the_row.coded) };

    ghost view = { λ it. record { store = it.store.now; list = it.list; ends = it.ends } };

    ghost invariant = { λ it. IsWalk (record {
      store = it.store.now;
      list = it.list;
      ends = it.ends;
    }) };
}

/// The units of a list, of which none is gone. Nothing is lent yet. It takes a few steps.
pub fn walk(store: &Store, list: usize) -> ListWalk<'_>
    requires list { list < count_of store.now.placed }
    requires told { HasNoGone store.now list }
    ensures { units_left result ≡ lent_in store.now list }
{
    store.is_sound();
    whole_walk(store, list)
}

/// The units of a list, of which none is gone, where the store is known to be sound. It takes a few
/// loads.
pub(crate) fn whole_walk(store: &Store, list: usize) -> ListWalk<'_>
    requires list { list < count_of store.now.placed }
    requires gone { HasNoGone store.now list }
    requires lists { AreLists store.now.placed.linked }
    requires told { AreTold (runs_of store.now.placed) (told_of store.now.contents) }
    ensures { units_left result ≡ lent_in store.now list }
{
    ListWalk {
        store,
        list,
        ends: all(store, list),
    }
}

/// The units of a list, of which none is gone, from a place of it on. It takes a few steps.
pub(crate) fn walk_from(store: &Store, list: usize, place: usize) -> ListWalk<'_>
    requires list { list < count_of store.now.placed }
    requires told { HasNoGone store.now list }
    requires place { IsIn place (places_in store.now.placed list) }
    ensures { units_left result ≡ lent_from_place store.now list place }
{
    store.is_sound();
    ListWalk {
        store,
        list,
        ends: all_from(store, list, place),
    }
}

impl<'a> ListWalk<'a> {
    /// The next run's units, or none where no unit is left. It takes no memory, and a few steps.
    pub fn next(&mut self) -> Option<LentRun<'a>>
        ensures lends { MatchOption result (units_left self.old ≡ [])
            (λ run. units_left self.old ≡ units_of_run run ++ units_left self.new) }
        ensures some { IfSome result (λ run. 0 < run.len) }
        ensures len { IfSome result (λ run. run.len ≡ len_of (content_value run.content.now)) }
        ensures ended { IfNone result (units_left self.new ≡ []) }
    {
        let ends = self.ends?;
        let run = lent_run(self.store, ends.first);
        self.ends = without_first(self.store, self.list, ends);
        Some(run)
    }

    /// The last of the runs that are still to come, which is then not to come any more, or none where
    /// no unit is left. It takes no memory, and a few steps.
    pub fn next_back(&mut self) -> Option<LentRun<'a>>
        ensures lends { MatchOption result (units_left self.old ≡ [])
            (λ run. units_left self.old ≡ units_left self.new ++ units_of_run run) }
        ensures some { IfSome result (λ run. 0 < run.len) }
        ensures len { IfSome result (λ run. run.len ≡ len_of (content_value run.content.now)) }
        ensures ended { IfNone result (units_left self.new ≡ []) }
    {
        let ends = self.ends?;
        let run = lent_run(self.store, ends.last);
        self.ends = without_last(self.store, self.list, ends);
        Some(run)
    }

    /// The last run of those that are still to come, or none where no unit is left. It takes no memory,
    /// and a few steps.
    pub fn last(&self) -> Option<LentRun<'a>>
        ensures last { IfSome result (λ run. (front : List Lent)
            × (units_left self.now ≡ front ++ units_of_run run)) }
        ensures some { IfSome result (λ run. 0 < run.len) }
        ensures len { IfSome result (λ run. run.len ≡ len_of (content_value run.content.now)) }
        ensures none { IfNone result (units_left self.now ≡ []) }
    {
        let ends = self.ends?;
        Some(lent_run(self.store, ends.last))
    }
}
