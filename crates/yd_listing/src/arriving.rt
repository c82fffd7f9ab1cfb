//! What falls since units came.

ghost use Rattle.std.specs.Prelude.{◌≡◌, ◌≢◌, ◌<◌, true, Some, None, slice_get, OnOk, IfSome, IfNone};
ghost use Rattle.yd_words.specs.Each.{Each};
ghost use Rattle.yd_words.specs.Member.{IsIn};
ghost use Rattle.yd_ids.specs.declared.id.Id.{Id};
ghost use Rattle.yd_ids.specs.Id.{IsId, IsSpan};
ghost use Rattle.yd_ids.specs.Set.{HasId};
ghost use Rattle.yd_ids.specs.Span.{InSpan};
ghost use Rattle.yd_origins.specs.Deleted.{last_of};
ghost use Rattle.yd_meaning.specs.Names.{has_key, item_of_list};
ghost use Rattle.yd_arena.specs.Arena.{count_of};
ghost use Rattle.yd_listing.specs.Falling.{IsTold, IsCame, units_of_list, IsOutlived};
ghost use Rattle.yd_listing.specs.Steps.{Adds, InSpanUnder, IsOtherUnder, Takes, TakesAll};

use crate::came::Came;
use crate::outliving::add_outlived;
use crate::spans::add_span;
use yd_ids::{IdSet, Span};
use yd_kept::Kept;
use yd_ops::{List, NoMemory, Parent};

/// Adds what falls since some units came: those that are lost, those under a deleted item, and what
/// is not last under their key.
pub(crate) fn add_came(
    spans: &mut Vec<Span>,
    kept: &Kept,
    deleted: &IdSet,
    one: Came,
) -> Result<(), NoMemory>
    requires told { IsTold kept.now }
    requires came { IsCame kept.now one }
    ensures { OnOk result (Takes kept.now deleted.now one spans.old.items spans.new.items) }
{
    let Some(number) = one.list else {
        return add_span(spans, one.span);
    };
    let Some(name) = name_at(kept.names(), number) else {
        return Ok(());
    };
    add_under(spans, deleted, name, one.span)?;
    add_keyed(spans, kept, deleted, number, name, one.span)?;
    Ok(())
}

/// The name with a number, where there is one.
fn name_at(names: &[List], number: usize) -> Option<&List>
    ensures found { IfSome result (λ name. slice_get names.now number ≡ Some name.now) }
    ensures none { IfNone result (slice_get names.now number ≡ None) }
{
    names.get(number)
}

/// Adds a span of a list, where the item of the list was deleted.
fn add_under(
    spans: &mut Vec<Span>,
    deleted: &IdSet,
    name: &List,
    span: Span,
) -> Result<(), NoMemory>
    requires item { IfSome (item_of_list name.now) IsId }
    requires is_span { IsSpan span }
    ensures adds { OnOk result (Adds (InSpanUnder deleted.now name.now span)
        spans.old.items spans.new.items) }
    ensures all { OnOk result ((x : Id) → InSpanUnder deleted.now name.now span x
        → HasId spans.new.items x) }
{
    let Parent::Item(item) = name.parent else {
        return Ok(());
    };
    if deleted.has(item) {
        add_span(spans, span)?;
    }
    Ok(())
}

/// Adds what is overwritten, where the list is that of a key.
fn add_keyed(
    spans: &mut Vec<Span>,
    kept: &Kept,
    deleted: &IdSet,
    list: usize,
    name: &List,
    span: Span,
) -> Result<(), NoMemory>
    requires told { IsTold kept.now }
    requires list { list < count_of kept.now.store.placed }
    requires is_span { IsSpan span }
    requires there { (x : Id) → InSpan span x → IsIn x (units_of_list kept.now list) }
    ensures adds { OnOk result (Adds (IsOtherUnder name.now (units_of_list kept.now list))
        spans.old.items spans.new.items) }
    ensures keys { OnOk result (has_key name.now ≡ true → (x : Id) → InSpan span x
        → last_of (units_of_list kept.now list) ≢ Some x → HasId spans.new.items x) }
    ensures outlived { OnOk result (has_key name.now ≡ true → (x : Id) → InSpan span x
        → last_of (units_of_list kept.now list) ≡ Some x
        → IsOutlived deleted.now spans.new.items (units_of_list kept.now list)) }
{
    if is_keyed(name) {
        add_outlived(spans, kept, deleted, list, span)?;
    }
    Ok(())
}

/// The list is that of a key.
fn is_keyed(name: &List) -> bool
    ensures { result ≡ has_key name.now }
{
    name.key.is_some()
}

/// Adds what falls since units came, row by row.
pub(crate) fn add_all(
    spans: &mut Vec<Span>,
    kept: &Kept,
    deleted: &IdSet,
    came: &[Came],
) -> Result<(), NoMemory>
    requires told { IsTold kept.now }
    requires came { Each (IsCame kept.now) came.now }
    ensures { OnOk result (TakesAll kept.now deleted.now came.now
        spans.old.items spans.new.items) }
{
    for one in came {
        add_came(spans, kept, deleted, *one)?;
    }
    Ok(())
}
