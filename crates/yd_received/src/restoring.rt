//! Putting back what was received before.

ghost use Rattle.std.specs.Prelude.{◌≡◌, map};
ghost use Rattle.yd_words.specs.Each.{Each};
ghost use Rattle.yd_ids.specs.Id.{IsId};
ghost use Rattle.yd_entries.specs.declared.place.Place.TheVariants.{Waits};
ghost use Rattle.yd_entries.specs.declared.entry.Entry.{Entry};
ghost use Rattle.yd_received.specs.Received.{undone, with_place};

use yd_entries::{Entries, Entry, Place};
use yd_ids::Vector;

/// Lets units wait that are not below the clocks.
pub(crate) fn undo_holding(entries: &mut Entries, clocks: &Vector)
    requires { Each (λ t. IsId t.id) entries.old }
    ensures { entries.new ≡ map (undone clocks.now) entries.old }
{
    for at in 0..entries.len() {
        let entry = entries.get(at);
        entries.set(at, undone(entry, clocks));
    }
}

/// The units, which wait unless they are below the clocks.
fn undone(entry: Entry, clocks: &Vector) -> Entry
    requires { IsId entry.id }
    ensures { result ≡ undone clocks.now entry }
{
    if entry.id.clock < clocks.get(entry.id.client) {
        return entry;
    }
    Entry {
        place: Place::Waits,
        ..entry
    }
}

/// Lets all units wait.
pub(crate) fn let_wait(entries: &mut Entries)
    ensures { entries.new ≡ map (λ (t : Entry). with_place t Waits) entries.old }
{
    for at in 0..entries.len() {
        let entry = entries.get(at);
        entries.set(
            at,
            Entry {
                place: Place::Waits,
                ..entry
            },
        );
    }
}
