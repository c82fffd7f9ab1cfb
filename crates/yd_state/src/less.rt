//! What is told less of units that are held: all that takes memory comes first, and then what cannot
//! fail.

ghost use Rattle.std.specs.Prelude.{◌≡◌, IfSome, IfNone, OnOk, IfOk};
ghost use Rattle.yd_store.specs.Lowering.{number_of, MapsUnits};
ghost use Rattle.yd_entries.specs.Entries.{IsTakenOf};
ghost use Rattle.yd_entries.specs.Lowering.{level_of_entry};
ghost use Rattle.yd_received.specs.Received.{held_of};
ghost use Rattle.yd_state.specs.Back.{IsSound};
ghost use Rattle.yd_state.specs.Placing.{KeepsIds, KeepsAll};
ghost use Rattle.yd_state.specs.Telling.{CanBeLess, IsLessIn, LeavesLess, ReadiesMore, IsReady};
ghost use Rattle.yd_state.specs.Telling.{told_by, CutsRuns, KeepsStanding};

use crate::fault::NoMemory;
use yd_held::Held;
use yd_ids::{Id, Span};
use yd_kept::{Kept, Level, Torn};
use yd_ops::{Content, Run};
use yd_received::Entry;

/// What is told less of some units, with all memory that this takes.
#[derive(Drop)]
pub(crate) enum Less {
    /// They are deleted, or gone.
    Down(Span, Level),
    /// They are a half, which is U+FFFD.
    Half(Torn),
}

/// Makes ready what is told less of the entries with these numbers: runs are cut at their ends. No
/// unit changes. It takes a few look-ups for each entry.
pub(crate) fn ready(kept: &mut Kept, held: &Held, told: &[usize]) -> Result<Vec<Less>, NoMemory>
    requires ids { KeepsIds (held_of held.now.received) kept.old }
    requires less { CanBeLess held.now told.now kept.old.store }
    requires sound { IsSound kept.old.store }
    ensures less { IfOk result (λ less. LeavesLess held.now less.items kept.new.store) }
    ensures cuts { CutsRuns kept.old kept.new }
{
    let received = held.received();
    let mut less = Vec::new(received.allocator());
    for at in told {
        ready_entry(kept, held, received.entries().get(*at), &mut less)?;
    }
    Ok(less)
}

/// Makes ready what is told less of an entry.
fn ready_entry(
    kept: &mut Kept,
    held: &Held,
    entry: Entry,
    less: &mut Vec<Less>,
) -> Result<(), NoMemory>
    requires ids { KeepsIds (held_of held.now.received) kept.old }
    requires entry { IsLessIn held.now entry kept.old.store }
    ensures ready { OnOk result (ReadiesMore held.now entry
        less.old.items less.new.items kept.new.store) }
    ensures cuts { CutsRuns kept.old kept.new }
{
    match level_of(held.received().runs(), entry) {
        Some(level) => {
            ready_span(kept, held, entry, level, less)?;
            Ok(())
        }
        None => {
            ready_halves(kept, held, entry, less)?;
            Ok(())
        }
    }
}

/// The level down to which an entry is told; none where it is told in full.
fn level_of(runs: &[Run], entry: Entry) -> Option<Level>
    requires { IsTakenOf runs.now entry }
    ensures down { IfSome result (λ level. level_of_entry runs.now entry ≡ number_of level) }
    ensures full { IfNone result (level_of_entry runs.now entry ≡ 2) }
{
    if entry.is_gone {
        return Some(Level::Gone);
    }
    match &runs[entry.run].content {
        Content::Deleted(_) => Some(Level::Deleted),
        _ => None,
    }
}

/// Makes ready that the units of an entry are deleted, or gone.
fn ready_span(
    kept: &mut Kept,
    held: &Held,
    entry: Entry,
    level: Level,
    less: &mut Vec<Less>,
) -> Result<(), NoMemory>
    requires ids { KeepsIds (held_of held.now.received) kept.old }
    requires entry { IsLessIn held.now entry kept.old.store }
    requires level { level_of_entry held.now.received.runs entry ≡ number_of level }
    ensures ready { OnOk result (ReadiesMore held.now entry
        less.old.items less.new.items kept.new.store) }
    ensures cuts { CutsRuns kept.old kept.new }
{
    // That what is held is sound says that the span is held too.
    let _ = held.received();
    let span = Span {
        client: entry.id.client,
        clock: entry.id.clock,
        len: entry.len,
    };
    kept.part_span(span)?;
    less.push(Less::Down(span, level))?;
    Ok(())
}

/// Makes ready that each unit of an entry is U+FFFD. There is one, since a half is an entry of its
/// own.
fn ready_halves(
    kept: &mut Kept,
    held: &Held,
    entry: Entry,
    less: &mut Vec<Less>,
) -> Result<(), NoMemory>
    requires ids { KeepsIds (held_of held.now.received) kept.old }
    requires entry { IsLessIn held.now entry kept.old.store }
    requires full { level_of_entry held.now.received.runs entry ≡ 2 }
    ensures ready { OnOk result (ReadiesMore held.now entry
        less.old.items less.new.items kept.new.store) }
    ensures cuts { CutsRuns kept.old kept.new }
{
    // That what is held is sound says that no clock overflows.
    let _ = held.received();
    for n in 0..entry.len {
        let half = Id {
            client: entry.id.client,
            clock: entry.id.clock + n,
        };
        let torn = kept.free_half(half)?;
        less.push(Less::Half(torn))?;
    }
    Ok(())
}

/// Tells units less. It takes no memory.
pub(crate) fn tell(kept: &mut Kept, held: &Held, less: Vec<Less>)
    requires ids { KeepsIds (held_of held.now.received) kept.old }
    requires less { LeavesLess held.now less.items kept.old.store }
    ensures all { KeepsAll (held_of held.now.received) kept.new }
    ensures less { KeepsStanding kept.old kept.new }
{
    // That what is held is sound says that each id is told once.
    let _ = held.received();
    let mut less = less;
    while let Some(one) = less.pop() {
        tell_one(kept, one);
    }
}

/// Tells some units less.
fn tell_one(kept: &mut Kept, less: Less)
    requires { IsReady kept.old.store less }
    ensures maps { MapsUnits kept.old.store kept.new.store (told_by less) }
    ensures placed { kept.new.store.placed ≡ kept.old.store.placed }
    ensures names { kept.new.names ≡ kept.old.names }
{
    match less {
        Less::Down(span, level) => kept.lower_parted(span, level),
        Less::Half(torn) => kept.tear_half(torn),
    }
}
