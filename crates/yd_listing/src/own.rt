//! The list of a parent's own, found among its lists.

ghost use Rattle.std.specs.Prelude.{◌≡◌, ◌≢◌, ◌<◌, ℕ, Some, IfSome, IfNone, length, slice_get};
ghost use Rattle.yd_arena.specs.Arena.{count_of};
ghost use Rattle.yd_names.specs.Names.{IsLastOf};
ghost use Rattle.yd_listing.specs.Listing.{own_name};

use yd_kept::Kept;
use yd_ops::Parent;

/// The number of a parent's own list, and none where it has none, where the last of the parent's lists
/// is known. It goes along the lists of this parent alone.
pub(crate) fn own_number(kept: &Kept, parent: &Parent, last: Option<usize>) -> Option<usize>
    requires last { IsLastOf kept.now.names parent.now (length kept.now.names) last }
    requires within { IfSome last (λ n. n < count_of kept.now.store.placed) }
    ensures there { IfSome result (λ n. slice_get kept.now.names n ≡ Some (own_name parent.now)) }
    ensures within { IfSome result (λ n. n < count_of kept.now.store.placed) }
    ensures none { IfNone result ((n : ℕ)
        → slice_get kept.now.names n ≢ Some (own_name parent.now)) }
{
    let mut next = last;
    while let Some(number) = next {
        if kept.names()[number].key.is_none() {
            return Some(number);
        }
        next = kept.last_of(parent, Some(number));
    }
    None
}
