//! What is overwritten under its key.

ghost use Rattle.std.specs.Prelude.{◌≡◌, ◌≢◌, ◌<◌, Some, OnOk};
ghost use Rattle.yd_words.specs.Member.{IsIn};
ghost use Rattle.yd_ids.specs.declared.id.Id.{Id};
ghost use Rattle.yd_ids.specs.Id.{IsSpan};
ghost use Rattle.yd_ids.specs.Set.{HasId};
ghost use Rattle.yd_ids.specs.Span.{InSpan};
ghost use Rattle.yd_origins.specs.Deleted.{last_of};
ghost use Rattle.yd_arena.specs.Arena.{count_of};
ghost use Rattle.yd_listing.specs.Falling.{IsTold, units_of_list, IsOutlived};
ghost use Rattle.yd_listing.specs.Steps.{Adds, IsOther};

use crate::spans::{add_but, is_in, last_id, span_at};
use yd_ids::{Id, IdSet, Span};
use yd_kept::Kept;
use yd_ops::NoMemory;

/// Adds what is not last in a list, of the units of a span of it. Where the last one is among
/// these, it adds what stands before it too, back to a run that was deleted.
pub(crate) fn add_outlived(
    spans: &mut Vec<Span>,
    kept: &Kept,
    deleted: &IdSet,
    list: usize,
    span: Span,
) -> Result<(), NoMemory>
    requires told { IsTold kept.now }
    requires list { list < count_of kept.now.store.placed }
    requires is_span { IsSpan span }
    requires there { (x : Id) → InSpan span x → IsIn x (units_of_list kept.now list) }
    ensures adds { OnOk result (Adds (IsOther (units_of_list kept.now list))
        spans.old.items spans.new.items) }
    ensures keys { OnOk result ((x : Id) → InSpan span x
        → last_of (units_of_list kept.now list) ≢ Some x → HasId spans.new.items x) }
    ensures outlived { OnOk result ((x : Id) → InSpan span x
        → last_of (units_of_list kept.now list) ≡ Some x
        → IsOutlived deleted.now spans.new.items (units_of_list kept.now list)) }
{
    let store = kept.store();
    let Some(place) = store.last(list) else {
        return Ok(());
    };
    let last = last_id(span_at(store, place));
    add_but(spans, span, last)?;
    if is_in(span, last) {
        add_back(spans, kept, deleted, list, last)?;
    }
    Ok(())
}

/// Adds what stands before the last unit of a list, run by run, back to one that was deleted.
fn add_back(
    spans: &mut Vec<Span>,
    kept: &Kept,
    deleted: &IdSet,
    list: usize,
    last: Id,
) -> Result<(), NoMemory>
    requires told { IsTold kept.now }
    requires list { list < count_of kept.now.store.placed }
    requires last { last_of (units_of_list kept.now list) ≡ Some last }
    ensures adds { OnOk result (Adds (IsOther (units_of_list kept.now list))
        spans.old.items spans.new.items) }
    ensures outlived { OnOk result
        (IsOutlived deleted.now spans.new.items (units_of_list kept.now list)) }
{
    let store = kept.store();
    let mut next = store.last(list);
    while let Some(place) = next {
        let span = span_at(store, place);
        if deleted.has(last_id(span)) {
            return Ok(());
        }
        add_but(spans, span, last)?;
        next = store.prev(place);
    }
    Ok(())
}
