//! Which units came, and into which lists.

ghost use Rattle.std.specs.Prelude.{◌≡◌, ◌<◌, true, Some, None, slice_get, length, IfOk, IfSome, IfNone};
ghost use Rattle.yd_words.specs.Each.{Each};
ghost use Rattle.yd_state.specs.Coming.{IsListAt, IsCameOf, AreCame};

use crate::fault::NoMemory;
use std::alloc::Global;
use yd_held::Held;
use yd_ids::Span;
use yd_kept::Kept;
use yd_listing::Came;
use yd_names::is_same_list;
use yd_ops::List;
use yd_received::{Entry, Place};

/// The units of the entries with these numbers, one row an entry, with their lists in the store. For
/// each entry in a list it compares a name, or takes a look-up.
pub(crate) fn came_of(
    alloc: Global,
    kept: &Kept,
    held: &Held,
    order: &[usize],
) -> Result<Vec<Came>, NoMemory>
    requires { Each (λ at. at < length held.now.received.entries) order.now }
    ensures { IfOk result (λ came. AreCame held.now kept.now order.now came.items) }
{
    let entries = held.received().entries();
    let mut came = Vec::new(alloc);
    for at in order {
        came.push(came_at(kept, held, entries.get(*at)))?;
    }
    Ok(came)
}

/// The units of an entry, with their list in the store.
fn came_at(kept: &Kept, held: &Held, entry: Entry) -> Came
    ensures { IsCameOf held.now kept.now entry result }
{
    Came {
        span: Span {
            client: entry.id.client,
            clock: entry.id.clock,
            len: entry.len,
        },
        list: list_at(kept, held.names(), entry.place),
    }
}

/// The number that the list of a place has in the store. Mostly that is the same one; where it is
/// another, it takes a look-up by a hash.
fn list_at(kept: &Kept, names: &[List], place: Place) -> Option<usize>
    ensures { IsListAt names.now kept.now.names place result }
{
    let Place::In(number) = place else {
        return None;
    };
    let Some(name) = name_at(names, number) else {
        return None;
    };
    if is_named(kept, number, name) {
        return Some(number);
    }
    kept.number_of(name)
}

/// The list with a number in the store is there, and has this name.
fn is_named(kept: &Kept, number: usize, name: &List) -> bool
    ensures { result ≡ true → slice_get kept.now.names number ≡ Some name.now }
{
    match name_at(kept.names(), number) {
        Some(other) => is_same_list(other, name),
        None => false,
    }
}

/// The name with a number, where there is one.
fn name_at(names: &[List], number: usize) -> Option<&List>
    ensures found { IfSome result (λ name. slice_get names.now number ≡ Some name.now) }
    ensures none { IfNone result (slice_get names.now number ≡ None) }
{
    names.get(number)
}
