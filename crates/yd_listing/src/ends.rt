//! The last run of a list.

ghost use Rattle.std.specs.Prelude.{◌≡◌, ◌++◌, ◌<◌, List, [], IfSome, IfNone};
ghost use Rattle.yd_ops.specs.Value.{len_of};
ghost use Rattle.yd_ops.specs.View.{content_value};
ghost use Rattle.yd_arena.specs.Arena.{count_of};
ghost use Rattle.yd_listing.specs.Lending.{Lent, HasNoGone, units_of_run, lent_in};

use crate::lent::{LentRun, lent_run};
use yd_store::Store;

/// The last run of a list of which no unit is gone, or None where the list has no unit. It takes no
/// memory, and a few steps.
pub fn last_run(store: &Store, list: usize) -> Option<LentRun<'_>>
    requires list { list < count_of store.now.placed }
    requires told { HasNoGone store.now list }
    ensures last { IfSome result (λ run. (front : List Lent)
        × (lent_in store.now list ≡ front ++ units_of_run run)) }
    ensures some { IfSome result (λ run. 0 < run.len) }
    ensures len { IfSome result (λ run. run.len ≡ len_of (content_value run.content.now)) }
    ensures none { IfNone result (lent_in store.now list ≡ []) }
{
    let Some(place) = store.last(list) else {
        return None;
    };
    store.is_sound();
    Some(lent_run(store, place))
}
