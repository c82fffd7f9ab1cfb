//! What waits of a client.

ghost use Rattle.std.specs.Prelude.{◌≡◌, ◌≤◌, true, false, None, Some, length, take, drop, slice_get, IfSome, IfNone};
ghost use Rattle.yd_words.specs.Each.{Each};
ghost use Rattle.yd_entries.specs.Entries.{AreInOrder};
ghost use Rattle.yd_making.specs.Waiting.{first_clock, is_passed, clock_if_of, IsHeldBelow};

use yd_ids::Client;
use yd_pieces::Test;
use yd_received::{Entries, Entry};

/// The smallest clock of the client's units that wait, and none where none waits. Those of its
/// entries are held that begin below a clock. It takes a bisection.
pub(crate) fn first_clock(entries: &Entries, client: Client, reached: u64) -> Option<u64>
    requires in_order { AreInOrder entries.now }
    requires held { Each (IsHeldBelow client.0 reached) entries.now }
    ensures { result ≡ first_clock client.0 entries.now }
{
    let at = passed(entries, client, reached);
    match entry_at(entries, at) {
        None => None,
        Some(entry) => clock_if_of(entry, client),
    }
}

/// How many entries are of greater clients, or of the client and begin below a clock.
fn passed(entries: &Entries, client: Client, reached: u64) -> usize
    requires { AreInOrder entries.now }
    ensures bound { result ≤ length entries.now }
    ensures before { Each (λ t. is_passed client.0 reached t ≡ true) (take result entries.now) }
    ensures behind { Each (λ t. is_passed client.0 reached t ≡ false) (drop result entries.now) }
{
    entries.partition_point(&Below { client, reached })
}

/// A test for entries of greater clients, or of the client that begin below a clock.
#[derive(Clone, Copy)]
struct Below {
    client: Client,
    reached: u64,
}

impl Test<Entry> for Below {
    ghost use Rattle.yd_making.specs.Waiting.{is_passed};

    ghost passes = { λ test entry. is_passed test.client.0 test.reached entry };

    fn passes(&self, entry: &Entry) -> bool {
        is_passed(*entry, self.client, self.reached)
    }
}

/// The entry is of a greater client, or of the client and begins below a clock.
fn is_passed(entry: Entry, client: Client, reached: u64) -> bool
    ensures { result ≡ is_passed client.0 reached entry }
{
    entry.id.client.0 > client.0 || (entry.id.client.0 == client.0 && entry.id.clock < reached)
}

/// The entry at a place, where there is one.
fn entry_at(entries: &Entries, at: usize) -> Option<Entry>
    ensures found { IfSome result (λ entry. slice_get entries.now at ≡ Some entry) }
    ensures none { IfNone result (slice_get entries.now at ≡ None) }
{
    if at < entries.len() {
        return Some(entries.get(at));
    }
    None
}

/// The clock of an entry, if it is the client's.
fn clock_if_of(entry: Entry, client: Client) -> Option<u64>
    ensures { result ≡ clock_if_of client.0 (Some entry) }
{
    if entry.id.client.0 == client.0 {
        return Some(entry.id.clock);
    }
    None
}
