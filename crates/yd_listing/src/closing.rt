//! What falls under what falls.

ghost use Rattle.std.specs.Prelude.{◌≡◌, ◌<◌, ℕ, OnOk};
ghost use Rattle.yd_words.specs.Each.{Each};
ghost use Rattle.yd_words.specs.Member.{IsIn};
ghost use Rattle.yd_ids.specs.Id.{IsId, IsSpan};
ghost use Rattle.yd_ids.specs.Set.{HasId};
ghost use Rattle.yd_ids.specs.Span.{InSpan};
ghost use Rattle.yd_arena.specs.Arena.{count_of};
ghost use Rattle.yd_listing.specs.Falling.{IsTold, IsUnder};
ghost use Rattle.yd_listing.specs.Closing.{Queues, IsListOf, NotesLists, OpensList, Closes};

use crate::queue::Queue;
use crate::spans::{add_span, span_at, span_behind};
use std::alloc::Global;
use yd_ids::{Id, IdSet, Span};
use yd_kept::Kept;
use yd_ops::{NoMemory, Parent};

/// Adds the units of all lists under the spans, and under those that are added, but for the lists
/// of items that were deleted. Each list is opened once.
pub(crate) fn close(
    alloc: Global,
    spans: &mut Vec<Span>,
    kept: &Kept,
    deleted: &IdSet,
) -> Result<(), NoMemory>
    requires told { IsTold kept.now }
    requires spans { Each IsSpan spans.old.items }
    ensures { OnOk result (Closes kept.now deleted.now spans.old.items spans.new.items) }
{
    let mut queue = Queue::new(alloc);
    note_all(&mut queue, kept, deleted, spans)?;
    let mut at = 0;
    while let Some(list) = queue.get(at) {
        open_list(spans, &mut queue, kept, deleted, list)?;
        at += 1;
    }
    Ok(())
}

/// Adds the units of a list, and queues the lists under them.
fn open_list(
    spans: &mut Vec<Span>,
    queue: &mut Queue,
    kept: &Kept,
    deleted: &IdSet,
    list: usize,
) -> Result<(), NoMemory>
    requires told { IsTold kept.now }
    requires list { list < count_of kept.now.store.placed }
    ensures { OnOk result (OpensList kept.now deleted.now list
        spans.old.items spans.new.items queue.old queue.new) }
{
    let store = kept.store();
    let mut next = store.first(list);
    while let Some(place) = next {
        let span = span_at(store, place);
        add_span(spans, span)?;
        note_lists(queue, kept, deleted, span)?;
        next = store.next(place);
    }
    Ok(())
}

/// Queues the lists under spans.
fn note_all(queue: &mut Queue, kept: &Kept, deleted: &IdSet, spans: &[Span]) -> Result<(), NoMemory>
    requires { Each IsSpan spans.now }
    ensures { OnOk result (NotesLists kept.now deleted.now (HasId spans.now) queue.old queue.new) }
{
    for span in spans {
        note_lists(queue, kept, deleted, *span)?;
    }
    Ok(())
}

/// Queues the lists under a span, but for those of items that were deleted.
fn note_lists(queue: &mut Queue, kept: &Kept, deleted: &IdSet, span: Span) -> Result<(), NoMemory>
    requires { IsSpan span }
    ensures { OnOk result (NotesLists kept.now deleted.now (InSpan span) queue.old queue.new) }
{
    let mut rest = span;
    while let Some(item) = kept.first_item(rest) {
        note_item(queue, kept, deleted, item)?;
        rest = span_behind(rest, item.clock);
    }
    Ok(())
}

/// Queues the lists of an item, unless it was deleted.
fn note_item(queue: &mut Queue, kept: &Kept, deleted: &IdSet, item: Id) -> Result<(), NoMemory>
    requires { IsId item }
    ensures { OnOk result (NotesLists kept.now deleted.now (λ y. y ≡ item) queue.old queue.new) }
{
    if !deleted.has(item) {
        note_lists_of(queue, kept, item)?;
    }
    Ok(())
}

/// Queues the lists of an item.
fn note_lists_of(queue: &mut Queue, kept: &Kept, item: Id) -> Result<(), NoMemory>
    ensures queues { OnOk result (Queues (IsListOf kept.now (λ y. y ≡ item))
        queue.old queue.new) }
    ensures all { OnOk result ((n : ℕ) → IsUnder kept.now n item → IsIn n queue.new) }
{
    let parent = Parent::Item(item);
    let mut last = kept.last_of(&parent, None);
    while let Some(list) = last {
        queue.add(list)?;
        last = kept.last_of(&parent, Some(list));
    }
    Ok(())
}
