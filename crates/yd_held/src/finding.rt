//! Looking for entries, first where they likely stand.

ghost use Rattle.std.specs.Prelude.{◌≡◌, ◌≢◌, ◌<◌, true, length, HoldsAt, IfSome, IfNone};
ghost use Rattle.std.specs.Bool.{OnTrue};
ghost use Rattle.yd_words.specs.Each.{Each};
ghost use Rattle.yd_entries.specs.Entries.{covers};
ghost use Rattle.yd_entries.specs.Taking.{is_covered};

use yd_ids::{Id, is_same};
use yd_received::{Entries, Entry, Received};

/// Places of entries, at which it is looked first.
#[derive(Clone, Copy)]
pub(crate) struct Near {
    /// Here, and at the next place.
    pub first: usize,
    /// Then here.
    pub second: usize,
}

/// The place of the entry whose units have the id. Where it is not near, it takes a bisection.
pub(crate) fn find(received: &Received, id: Id, near: Near) -> usize
    requires { is_covered received.now.entries id ≡ true }
    ensures inside { result < length received.now.entries }
    ensures covers { HoldsAt (λ t. covers t id ≡ true) received.now.entries result }
{
    let entries = received.entries();
    if has_at(entries, near.first, id) {
        return near.first;
    }
    let next = near.first.saturating_add(1);
    if has_at(entries, next, id) {
        return next;
    }
    if has_at(entries, near.second, id) {
        return near.second;
    }
    received.entry_of(id)
}

/// An entry is at the place, and its units have the id.
fn has_at(entries: &Entries, at: usize, id: Id) -> bool
    ensures inside { OnTrue result (at < length entries.now) }
    ensures covers { OnTrue result (HoldsAt (λ t. covers t id ≡ true) entries.now at) }
{
    at < entries.len() && covers(entries.get(at), id)
}

/// The id is that of one of the units.
fn covers(entry: Entry, id: Id) -> bool
    ensures { result ≡ covers entry id }
{
    // No sum, since an end has no bound here.
    entry.id.client.0 == id.client.0
        && entry.id.clock <= id.clock
        && id.clock - entry.id.clock < entry.len
}

/// The place of the entry that begins at the id, and none where no entry does. Where it is not behind
/// the place that is near, it takes a bisection.
pub(crate) fn find_start(received: &Received, id: Id, near: Near) -> Option<usize>
    ensures found { IfSome result (λ at. (at < length received.now.entries)
        × HoldsAt (λ t. t.id ≡ id) received.now.entries at) }
    ensures none { IfNone result (Each (λ t. t.id ≢ id) received.now.entries) }
{
    let entries = received.entries();
    let next = near.first.saturating_add(1);
    if next < entries.len() && is_same(entries.get(next).id, id) {
        return Some(next);
    }
    received.entry_at(id)
}
