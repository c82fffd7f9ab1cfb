//! One run of a list, lent.

ghost use Rattle.std.specs.Prelude.{◌≡◌, ◌≢◌, ◌<◌, None, length};
ghost use Rattle.yd_ops.specs.View.{content_value};
ghost use Rattle.yd_ops.specs.Value.{len_of};
ghost use Rattle.yd_scan.specs.Stretches.{stretch_at};
ghost use Rattle.yd_arena.specs.Arena.{runs_of};
ghost use Rattle.yd_store.specs.Contents.{told_of, run_at};
ghost use Rattle.yd_store.specs.Store.{AreTold};
ghost use Rattle.yd_listing.specs.Lending.{units_of_run, lent_at};

use yd_ids::Id;
use yd_ops::Content;
use yd_store::Store;

/// The units of one run, as they stand in a list, lent.
#[derive(Clone, Copy)]
pub struct LentRun<'a> {
    /// The id of the first unit. Unit `j` has its clock plus `j`.
    pub id: Id,
    /// How many units there are.
    pub len: u64,
    /// They are deleted.
    pub deleted: bool,
    /// What they hold. Of units that an update spelled deleted this is `Content::Deleted`.
    pub content: &'a Content,
}

/// The run at a place, which is not gone. It takes a few loads.
pub(crate) fn lent_run(store: &Store, place: usize) -> LentRun<'_>
    requires place { place < length (runs_of store.now.placed) }
    requires told { run_at (told_of store.now.contents) place ≢ None }
    requires sound { AreTold (runs_of store.now.placed) (told_of store.now.contents) }
    ensures units { units_of_run result ≡ lent_at store.now place }
    ensures len { result.len ≡ (stretch_at (runs_of store.now.placed) place).len }
    ensures held { result.len ≡ len_of (content_value result.content.now) }
{
    let deleted = store.is_deleted(place);
    let Some(run) = store.run_of(place) else {
        unreachable!();
    };
    LentRun {
        id: run.id,
        len: run.len(),
        deleted,
        content: &run.content,
    }
}
