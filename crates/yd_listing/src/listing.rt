//! The units of a list with a name, lent in order.

ghost use Rattle.std.specs.Prelude.{◌≡◌, ◌++◌, ◌<◌, [], Some, IfSome, IfNone, MatchOption, length, slice_get};
ghost use Rattle.yd_ops.specs.declared.lists.List.{List as DocList};
ghost use Rattle.yd_ops.specs.View.{content_value};
ghost use Rattle.yd_ops.specs.Value.{len_of};
ghost use Rattle.yd_meaning.specs.Document.{Document};
ghost use Rattle.yd_arena.specs.Arena.{count_of};
ghost use Rattle.yd_listing.specs.Lending.{units_of_run, units_left};
ghost use Rattle.yd_listing.specs.Falling.{IsTold};
ghost use Rattle.yd_names.specs.Names.{IsLastOf};
ghost use Rattle.yd_listing.specs.Listing.{Tells, lent_units, own_name, units_to_come, EndIn, IsFrom, IsAround};
ghost use Rattle.yd_listing.specs.Listing.{AreInRange, IsInRange};

use crate::own::own_number;
use crate::standing::{place_before, place_in};
use crate::walking::{walk_from, whole_walk};
use crate::{LentRun, ListWalk};
use std::marker::Model;
use yd_ids::Id;
use yd_kept::Kept;
use yd_ops::{List, Parent};

/// The units of a list in order, seen as those that are still to come.
#[derive(Drop)]
pub struct ListView<'a> {
    walk: Option<ListWalk<'a>>,
}

impl<'a> Model for ListView<'a> {
    ghost use Rattle.std.specs.Prelude.{Option};
    ghost use Rattle.yd_listing.specs.Lending.{Walk};
    ghost use Rattle.yd_listing.specs.Listing.{AreInRange};
    ghost use Rattle.yd_any.specs.contracts.any_value.AnyList as any_list;
    ghost use Rattle.yd_any.specs.contracts.json_value.Json as json;
    ghost use Rattle.std.specs.Coded.{codes};

    ghost Value = { Option Walk };

    ghost coded = { Prim.hlevel (codes, json.the_row.coded, any_list.the_row.coded) };

    ghost view = { λ it. it.walk };

    ghost invariant = { λ it. AreInRange it.walk };
}

/// The units of the list with a name, in order, deleted ones too, and none where there is no such
/// list. It takes a look-up by a hash.
pub fn list<'a>(kept: &'a Kept, name: &List) -> ListView<'a>
    requires { IsTold kept.now }
    ensures { (document : Document) → Tells kept.now document →
        units_to_come result ≡ lent_units document name.now }
{
    match kept.number_of(name) {
        Some(number) => list_at(kept, number),
        None => ListView { walk: None },
    }
}

/// The units of a parent's own list, in order, deleted ones too, where the last of the parent's lists
/// is known. It looks at the lists of this parent alone, and takes no look-up by a hash.
pub fn own_list<'a>(kept: &'a Kept, parent: &Parent, last: Option<usize>) -> ListView<'a>
    requires told { IsTold kept.now }
    requires last { IsLastOf kept.now.names parent.now (length kept.now.names) last }
    requires within { IfSome last (λ n. n < count_of kept.now.store.placed) }
    ensures { (document : Document) → Tells kept.now document →
        units_to_come result ≡ lent_units document (own_name parent.now) }
{
    match own_number(kept, parent, last) {
        Some(number) => list_at(kept, number),
        None => ListView { walk: None },
    }
}

/// The units of the list with a number, in order, deleted ones too. It takes a few steps.
pub fn list_at(kept: &Kept, n: usize) -> ListView<'_>
    requires told { IsTold kept.now }
    requires within { n < count_of kept.now.store.placed }
    ensures { (document : Document) → Tells kept.now document → (name : DocList) →
        slice_get kept.now.names n ≡ Some name →
        units_to_come result ≡ lent_units document name }
{
    ListView {
        walk: Some(whole_walk(kept.store(), n)),
    }
}

/// The units of the list with a name from the run on that has the unit with an id, deleted ones too,
/// and none where no unit of the list has the id. It takes a bisection, and a look-up by a hash.
pub fn list_from<'a>(kept: &'a Kept, name: &List, id: Id) -> ListView<'a>
    requires { IsTold kept.now }
    ensures { (document : Document) → Tells kept.now document →
        IsFrom id (lent_units document name.now) (units_to_come result) }
{
    match kept.number_of(name) {
        Some(number) => list_at_from(kept, number, id),
        None => ListView { walk: None },
    }
}

/// The units of the list with a name from the run on that stands before the one with an id's unit,
/// deleted ones too, and all of them where no run does. It takes a bisection, and a look-up by a hash.
pub fn list_around<'a>(kept: &'a Kept, name: &List, id: Id) -> ListView<'a>
    requires { IsTold kept.now }
    ensures { (document : Document) → Tells kept.now document →
        IsAround id (lent_units document name.now) (units_to_come result) }
{
    match kept.number_of(name) {
        Some(number) => list_at_around(kept, number, id),
        None => ListView { walk: None },
    }
}

/// The units of the list with a number from the run on that has the unit with an id, deleted ones too.
fn list_at_from(kept: &Kept, n: usize, id: Id) -> ListView<'_>
    requires told { IsTold kept.now }
    requires within { n < count_of kept.now.store.placed }
    ensures { (document : Document) → Tells kept.now document → (name : DocList) →
        slice_get kept.now.names n ≡ Some name →
        IsFrom id (lent_units document name) (units_to_come result) }
{
    match place_in(kept.store(), n, id) {
        None => ListView { walk: None },
        Some(place) => ListView {
            walk: Some(walk_from(kept.store(), n, place)),
        },
    }
}

/// The units of the list with a number from the run on that stands before the one with an id's unit,
/// deleted ones too.
fn list_at_around(kept: &Kept, n: usize, id: Id) -> ListView<'_>
    requires told { IsTold kept.now }
    requires within { n < count_of kept.now.store.placed }
    ensures { (document : Document) → Tells kept.now document → (name : DocList) →
        slice_get kept.now.names n ≡ Some name →
        IsAround id (lent_units document name) (units_to_come result) }
{
    match place_before(kept.store(), n, id) {
        None => list_at(kept, n),
        Some(place) => ListView {
            walk: Some(walk_from(kept.store(), n, place)),
        },
    }
}

impl<'a> ListView<'a> {
    /// The next run's units, or none where no unit is left. It takes no memory, and a few steps.
    pub fn next(&mut self) -> Option<LentRun<'a>>
        ensures lends { MatchOption result (units_to_come self.old ≡ [])
            (λ run. units_to_come self.old ≡ units_of_run run ++ units_to_come self.new) }
        ensures some { IfSome result (λ run. 0 < run.len) }
        ensures len { IfSome result (λ run. run.len ≡ len_of (content_value run.content.now)) }
        ensures within { IfSome result IsInRange }
        ensures ended { IfNone result (units_to_come self.new ≡ []) }
    {
        match &mut self.walk {
            None => None,
            Some(walk) => next_in_range(walk),
        }
    }

    /// The last of the runs that are still to come, which is then not to come any more, or none where
    /// no unit is left. It takes no memory, and a few steps.
    pub fn next_back(&mut self) -> Option<LentRun<'a>>
        ensures lends { MatchOption result (units_to_come self.old ≡ [])
            (λ run. units_to_come self.old ≡ units_to_come self.new ++ units_of_run run) }
        ensures some { IfSome result (λ run. 0 < run.len) }
        ensures len { IfSome result (λ run. run.len ≡ len_of (content_value run.content.now)) }
        ensures within { IfSome result IsInRange }
        ensures ended { IfNone result (units_to_come self.new ≡ []) }
    {
        match &mut self.walk {
            None => None,
            Some(walk) => back_in_range(walk),
        }
    }

    /// The last run of those that are still to come, or none where no unit is left. It takes no memory,
    /// and a few steps.
    pub fn last(&self) -> Option<LentRun<'a>>
        ensures last { IfSome result (λ run. EndIn (units_to_come self.now) (units_of_run run)) }
        ensures some { IfSome result (λ run. 0 < run.len) }
        ensures len { IfSome result (λ run. run.len ≡ len_of (content_value run.content.now)) }
        ensures within { IfSome result IsInRange }
        ensures none { IfNone result (units_to_come self.now ≡ []) }
    {
        match &self.walk {
            None => None,
            Some(walk) => last_in_range(walk),
        }
    }
}

/// The last run of a walk, where the ids of all units that are still to come are in range.
fn last_in_range<'a>(walk: &ListWalk<'a>) -> Option<LentRun<'a>>
    requires { AreInRange (Some walk.now) }
    ensures last { IfSome result (λ run. EndIn (units_left walk.now) (units_of_run run)) }
    ensures some { IfSome result (λ run. 0 < run.len) }
    ensures len { IfSome result (λ run. run.len ≡ len_of (content_value run.content.now)) }
    ensures within { IfSome result IsInRange }
    ensures none { IfNone result (units_left walk.now ≡ []) }
{
    walk.last()
}

/// The next run of a walk, where the ids of all units that are still to come are in range.
fn next_in_range<'a>(walk: &mut ListWalk<'a>) -> Option<LentRun<'a>>
    requires { AreInRange (Some walk.old) }
    ensures lends { MatchOption result (units_left walk.old ≡ [])
        (λ run. units_left walk.old ≡ units_of_run run ++ units_left walk.new) }
    ensures some { IfSome result (λ run. 0 < run.len) }
    ensures len { IfSome result (λ run. run.len ≡ len_of (content_value run.content.now)) }
    ensures within { IfSome result IsInRange }
    ensures ended { IfNone result (units_left walk.new ≡ []) }
    ensures still { AreInRange (Some walk.new) }
{
    walk.next()
}

/// The last run of a walk, taken off, where the ids of all units that are still to come are in range.
fn back_in_range<'a>(walk: &mut ListWalk<'a>) -> Option<LentRun<'a>>
    requires { AreInRange (Some walk.old) }
    ensures lends { MatchOption result (units_left walk.old ≡ [])
        (λ run. units_left walk.old ≡ units_left walk.new ++ units_of_run run) }
    ensures some { IfSome result (λ run. 0 < run.len) }
    ensures len { IfSome result (λ run. run.len ≡ len_of (content_value run.content.now)) }
    ensures within { IfSome result IsInRange }
    ensures ended { IfNone result (units_left walk.new ≡ []) }
    ensures still { AreInRange (Some walk.new) }
{
    walk.next_back()
}
