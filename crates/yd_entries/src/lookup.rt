//! Where an id stands among what was taken.

ghost use Rattle.std.specs.Prelude.{◌≡◌, ◌≢◌, ◌<◌, ◌≤◌, ◌-◌, true, false, length, take, drop};
ghost use Rattle.std.specs.Prelude.{HoldsAt, IfSome, IfNone};
ghost use Rattle.yd_words.specs.Each.{Each};
ghost use Rattle.yd_entries.specs.Entries.{AreInOrder, covers};
ghost use Rattle.yd_entries.specs.Lookup.{PartsAt, begins_by};
ghost use Rattle.yd_entries.specs.Taking.{is_covered, HasUnits};

use crate::entries::Entries;
use crate::entry::Entry;
use yd_ids::Id;
use yd_pieces::Test;

/// The place, from 0, of the entry whose units have the id. It takes no memory, and time with the
/// logarithm of how many entries there are.
pub fn entry_of(taken: &Entries, id: Id) -> usize
    requires in_order { AreInOrder taken.now }
    requires covered { is_covered taken.now id ≡ true }
    ensures inside { result < length taken.now }
    ensures covers { HoldsAt (λ t. covers t id ≡ true) taken.now result }
{
    place(taken, id) - 1
}

/// The place, from 0, of the entry that begins at the id, and none where no entry does. It takes no
/// memory, and time with the logarithm of how many entries there are.
pub fn entry_at(taken: &Entries, id: Id) -> Option<usize>
    requires in_order { AreInOrder taken.now }
    requires each { Each HasUnits taken.now }
    ensures found { IfSome result (λ at. (at < length taken.now)
        × HoldsAt (λ t. t.id ≡ id) taken.now at) }
    ensures none { IfNone result (Each (λ t. t.id ≢ id) taken.now) }
{
    let count = place(taken, id);
    if count == 0 || taken.get(count - 1).id != id {
        return None;
    }
    Some(count - 1)
}

/// Places between which the first entry lies that begins behind an id.
#[derive(Clone, Copy)]
struct Bounds {
    /// All entries below begin at the id or before it.
    low: usize,
    /// No entry from here on does.
    high: usize,
}

/// How many entries begin at the id or before it. It looks where the id would lie if clocks rose evenly,
/// and then by a bisection, so it takes time with the logarithm of how many there are.
fn place(taken: &Entries, id: Id) -> usize
    requires { AreInOrder taken.now }
    ensures bound { result ≤ length taken.now }
    ensures before { Each (λ t. begins_by t id ≡ true) (take result taken.now) }
    ensures behind { Each (λ t. begins_by t id ≡ false) (drop result taken.now) }
{
    let bounds = guessed(taken, id);
    if bounds.low == bounds.high {
        return bounds.low;
    }
    taken.partition_point(&BegunBy { id })
}

/// The bounds, once it is looked where the id would lie if clocks rose evenly.
fn guessed(taken: &Entries, id: Id) -> Bounds
    requires { AreInOrder taken.now }
    ensures part { PartsAt taken.now id result }
    ensures within { (result.low ≤ result.high) × (result.high ≤ length taken.now) }
{
    let all = Bounds {
        low: 0,
        high: taken.len(),
    };
    if all.high == 0 {
        return all;
    }
    let bounds = look(taken, all, guess(taken, id), id);
    if bounds.low == 0 || bounds.low == bounds.high {
        return bounds;
    }
    // Often the next one tells that it was the last.
    look(taken, bounds, bounds.low, id)
}

/// The bounds, once the entry at a place between them is looked at.
fn look(taken: &Entries, bounds: Bounds, at: usize, id: Id) -> Bounds
    requires order { AreInOrder taken.now }
    requires within { bounds.high ≤ length taken.now }
    requires at { (bounds.low ≤ at) × (at < bounds.high) }
    ensures part { PartsAt taken.now id bounds → PartsAt taken.now id result }
    ensures within { (bounds.low ≤ result.low) × (result.low ≤ result.high) × (result.high ≤ bounds.high) }
    ensures nearer { result.high - result.low < bounds.high - bounds.low }
{
    if is_begun(taken.get(at), id) {
        return Bounds {
            low: at + 1,
            high: bounds.high,
        };
    }
    Bounds {
        low: bounds.low,
        high: at,
    }
}

/// The place where the id would lie if clocks rose evenly, where the first and the last entry are of its
/// client, and else the one in the middle.
fn guess(taken: &Entries, id: Id) -> usize
    requires { 0 < length taken.now }
    ensures { result < length taken.now }
{
    let last = taken.len() - 1;
    let first_id = taken.get(0).id;
    let last_id = taken.get(last).id;
    if first_id.client.0 != id.client.0 || last_id.client.0 != id.client.0 {
        return last / 2;
    }
    share(first_id.clock, last_id.clock, id.clock, last).min(last)
}

/// As much of a count as a clock lies on the way from one to another. It chooses where to look alone.
fn share(from: u64, to: u64, clock: u64, count: usize) -> usize {
    if clock <= from {
        return 0;
    }
    if clock >= to {
        return count;
    }
    match (clock - from).checked_mul(count as u64) {
        Some(product) => (product / (to - from)) as usize,
        None => count / 2,
    }
}

/// A test for entries that begin at an id or before it.
#[derive(Clone, Copy)]
struct BegunBy {
    id: Id,
}

impl Test<Entry> for BegunBy {
    ghost use Rattle.yd_entries.specs.Lookup.{begins_by};

    ghost passes = { λ test entry. begins_by entry test.id };

    fn passes(&self, entry: &Entry) -> bool {
        is_begun(*entry, self.id)
    }
}

/// The entry begins at the id or before it.
fn is_begun(entry: Entry, id: Id) -> bool
    ensures { result ≡ begins_by entry id }
{
    entry.id.client.0 > id.client.0 || (entry.id.client == id.client && entry.id.clock <= id.clock)
}
