//! Which ids came before, looked up by bisection.

ghost use Rattle.std.specs.Prelude.{◌≡◌, ◌≤◌, ◌<◌, ◌+◌, ◌-◌, false, length, take, drop};
ghost use Rattle.std.specs.Bool.{OnTrue, OnFalse};
ghost use Rattle.yd_words.specs.Each.{Each};
ghost use Rattle.yd_ids.specs.Id.{IsClock};
ghost use Rattle.yd_ops.specs.Operation.{later_id};
ghost use Rattle.yd_entries.specs.Entries.{AreInOrder};
ghost use Rattle.yd_entries.specs.Taking.{is_covered, AreCovered, HasUnits, EndsBy, EndsBehind};
ghost use Rattle.yd_entries.specs.Taking.{ends_by, IsGap};

use crate::entries::Entries;
use crate::entry::Entry;
use yd_ids::Id;
use yd_pieces::Test;

/// Ids of one client in a row that all came before, or none of which did.
#[derive(Clone, Copy)]
pub(crate) struct IdRow {
    /// How many ids there are.
    pub len: u64,
    /// None of them came before.
    pub is_new: bool,
    /// Where units with these ids go, if they are new.
    pub at: usize,
}

/// The ids in a row that begin with one, at most so many. It takes one bisection.
pub(crate) fn ids_from(taken: &Entries, id: Id, most: u64) -> IdRow
    requires in_order { AreInOrder taken.now }
    requires each { Each HasUnits taken.now }
    requires some { 0 < most }
    ensures bound { (0 < result.len) × (result.len ≤ most) }
    ensures old { OnFalse result.is_new (AreCovered taken.now id result.len) }
    ensures new { OnTrue result.is_new (IsGap taken.now result.at id result.len most) }
{
    let at = place(taken, id);
    let all_new = IdRow {
        len: most,
        is_new: true,
        at,
    };
    if at >= taken.len() {
        return all_new;
    }
    let next = taken.get(at);
    if next.id.client.0 != id.client.0 {
        return all_new;
    }
    if id.clock < next.id.clock {
        let len = most.min(next.id.clock - id.clock);
        return IdRow { len, ..all_new };
    }
    let len = most.min(next.len - (id.clock - next.id.clock));
    IdRow {
        len,
        is_new: false,
        at,
    }
}

/// How many ids in a row from one on came before, at most so many. It takes a bisection for each
/// entry that has some of them.
pub(crate) fn known_from(taken: &Entries, id: Id, most: u64) -> u64
    requires in_order { AreInOrder taken.now }
    requires each { Each HasUnits taken.now }
    requires end { IsClock (id.clock + most) }
    ensures bound { result ≤ most }
    ensures known { AreCovered taken.now id result }
    ensures new { result < most → is_covered taken.now (later_id id result) ≡ false }
{
    let mut count = 0;
    while count < most {
        let next = Id {
            client: id.client,
            clock: id.clock + count,
        };
        let ids = ids_from(taken, next, most - count);
        if ids.is_new {
            return count;
        }
        count += ids.len;
    }
    count
}

/// How many entries are written wholly before the id.
pub(crate) fn place(taken: &Entries, id: Id) -> usize
    requires { AreInOrder taken.now }
    ensures bound { result ≤ length taken.now }
    ensures before { Each (EndsBy id) (take result taken.now) }
    ensures behind { Each (EndsBehind id) (drop result taken.now) }
{
    let count = taken.len();
    // What comes in order goes behind all others.
    if is_behind(taken, count, id) {
        return count;
    }
    // What was taken last is often the next to be looked for.
    if is_behind(taken, count - 1, id) {
        return count - 1;
    }
    taken.partition_point(&EndsBefore { id })
}

/// So many entries from the first on are written wholly before the id, as the last of them tells.
fn is_behind(taken: &Entries, count: usize, id: Id) -> bool
    requires in_order { AreInOrder taken.now }
    requires bound { count ≤ length taken.now }
    ensures all { OnTrue result (Each (EndsBy id) (take count taken.now)) }
    ensures last { OnFalse result ((0 < count) × Each (EndsBehind id) (drop (count - 1) taken.now)) }
{
    count == 0 || ends_by(taken.get(count - 1), id)
}

/// A test for entries that are written wholly before an id.
#[derive(Clone, Copy)]
struct EndsBefore {
    id: Id,
}

impl Test<Entry> for EndsBefore {
    ghost use Rattle.yd_entries.specs.Taking.{ends_by};

    ghost passes = { λ test entry. ends_by test.id entry };

    fn passes(&self, entry: &Entry) -> bool {
        ends_by(*entry, self.id)
    }
}

/// The units are written wholly before the id.
fn ends_by(entry: Entry, id: Id) -> bool
    ensures { result ≡ ends_by id entry }
{
    // No sum, since an end has no bound here.
    let ends = entry.id.clock <= id.clock && entry.len <= id.clock - entry.id.clock;
    id.client.0 < entry.id.client.0 || (entry.id.client.0 == id.client.0 && ends)
}
