//! The units of a list, lent in order.

ghost use Rattle.std.specs.Prelude.{◌≡◌, ◌++◌, [], ◌<◌, List, Some, IfSome, IfNone, MatchOption};
ghost use Rattle.yd_ops.specs.Value.{len_of};
ghost use Rattle.yd_ops.specs.View.{content_value};
ghost use Rattle.yd_listing.specs.Lending.{units_of_run};
ghost use Rattle.yd_listing.specs.Listing.{EndIn, IsInRange, units_to_come};
ghost use Rattle.yd_state.specs.Lent.{Lent, units_left, units_of_view, IsWithin};

use std::marker::Model;
use yd_ids::Id;
use yd_listing::LentRun;
use yd_ops::Content;

/// Units of one client in a row, as they stand in a list, lent.
#[derive(Clone, Copy)]
pub struct RunView<'a> {
    /// The id of the first unit. Unit `j` has its clock plus `j`.
    pub id: Id,
    /// How many units there are, at least one.
    pub len: u64,
    /// They are deleted.
    pub deleted: bool,
    /// What holds them. Of units that an update spelled deleted this is `Content::Deleted`.
    pub content: &'a Content,
    /// Which unit of the content the first one is, from 0.
    pub offset: u64,
}

/// The units of a list in order, seen as those that are still to come.
#[derive(Drop)]
pub struct ListView<'a> {
    pub(crate) units: yd_listing::ListView<'a>,
}

impl<'a> Model for ListView<'a> {
    ghost use Rattle.std.specs.Prelude.{Option};
    ghost use Rattle.yd_listing.specs.Lending.{Walk};
    ghost use Rattle.yd_any.specs.contracts.any_value.AnyList as any_list;
    ghost use Rattle.yd_any.specs.contracts.json_value.Json as json;
    ghost use Rattle.std.specs.Coded.{codes};

    ghost Value = { Option Walk };

    ghost coded = { Prim.hlevel (codes, json.the_row.coded, any_list.the_row.coded) };

    ghost view = { λ it. it.units };
}

impl<'a> ListView<'a> {
    /// The units that a store lends of a list.
    pub fn of_lent(units: yd_listing::ListView<'a>) -> ListView<'a>
        ensures { units_left result ≡ units_to_come units.entry }
    {
        ListView { units }
    }

    /// The next units, at least one, or none where no unit is left. It takes no memory, and a few
    /// steps.
    pub fn next(&mut self) -> Option<RunView<'a>>
        ensures lends { MatchOption result (units_left self.old ≡ [])
            (λ view. units_left self.old ≡ units_of_view view ++ units_left self.new) }
        ensures some { IfSome result (λ view. 0 < view.len) }
        ensures within { IfSome result IsWithin }
        ensures ended { IfNone result (units_left self.new ≡ []) }
    {
        let run = self.units.next()?;
        Some(whole(run))
    }

    /// The last units, at least one, which are then not to come any more, or none where no unit is left.
    /// It takes no memory, and a few steps.
    pub fn next_back(&mut self) -> Option<RunView<'a>>
        ensures lends { MatchOption result (units_left self.old ≡ [])
            (λ view. units_left self.old ≡ units_left self.new ++ units_of_view view) }
        ensures some { IfSome result (λ view. 0 < view.len) }
        ensures within { IfSome result IsWithin }
        ensures ended { IfNone result (units_left self.new ≡ []) }
    {
        let run = self.units.next_back()?;
        Some(whole(run))
    }

    /// The last of the units that are still to come, or none where no unit is left. It takes no memory,
    /// and a few steps.
    pub fn last(&self) -> Option<RunView<'a>>
        ensures last { IfSome result (λ view. (front : List Lent)
            × (units_left self.now ≡ front ++ units_of_view view)) }
        ensures one { IfSome result (λ view. view.len ≡ 1) }
        ensures within { IfSome result IsWithin }
        ensures none { IfNone result (units_left self.now ≡ []) }
    {
        let run = self.units.last()?;
        Some(end_of(run))
    }
}

/// All units of a run.
fn whole(run: LentRun<'_>) -> RunView<'_>
    requires some { 0 < run.len }
    requires len { run.len ≡ len_of (content_value run.content.now) }
    requires range { IsInRange run }
    ensures units { units_of_view result ≡ units_of_run run.entry }
    ensures some { 0 < result.len }
    ensures within { IsWithin result }
{
    RunView {
        id: run.id,
        len: run.len,
        deleted: run.deleted,
        content: run.content,
        offset: 0,
    }
}

/// The last unit of a run.
fn end_of(run: LentRun<'_>) -> RunView<'_>
    requires some { 0 < run.len }
    requires len { run.len ≡ len_of (content_value run.content.now) }
    requires range { IsInRange run }
    ensures last { EndIn (units_of_run run.entry) (units_of_view result) }
    ensures one { result.len ≡ 1 }
    ensures within { IsWithin result }
{
    let offset = run.len - 1;
    RunView {
        id: Id {
            client: run.id.client,
            clock: run.id.clock + offset,
        },
        len: 1,
        deleted: run.deleted,
        content: run.content,
        offset,
    }
}
