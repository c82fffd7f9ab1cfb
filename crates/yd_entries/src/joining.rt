//! Joining an entry to the one before it.

ghost use Rattle.std.specs.Prelude.{◌≡◌, ◌<◌, ◌+◌, ◌-◌, true, false, length, Some};
ghost use Rattle.std.specs.Bool.{OnTrue, OnFalse};
ghost use Rattle.yd_ids.specs.Id.{IsClock};
ghost use Rattle.yd_ops.specs.Operation.{later_id};
ghost use Rattle.yd_entries.specs.Entries.{IsTakenOf, AreTaken, is_listed_at};
ghost use Rattle.yd_entries.specs.Joining.{IsSingle, GoesOn, EndsRun, AreAtEnds, MovesText, AppendsText};
ghost use Rattle.yd_entries.specs.Joining.{Joins, TellSame};
ghost use Rattle.yd_entries.specs.Taking.{AreUnchanged};

use crate::entries::Entries;
use crate::entry::Entry;
use crate::place::Place;
use yd_ids::Id;
use yd_ops::{Content, Run};

/// Joins an entry to the one before it, and says whether it did: where both are texts in one list,
/// the entry has all units of the last run, and these go on where the run of the other ends. Then
/// the text is appended there, and the last run is dropped. Of the entries behind those of one piece
/// move. Where memory ends nothing has changed.
pub fn join(runs: &mut Vec<Run>, taken: &mut Entries, at: usize) -> bool
    requires taken { AreTaken runs.old.items taken.old }
    requires single { IsSingle runs.old.items taken.old at }
    ensures same { TellSame runs.old.items taken.old runs.new.items taken.new }
    ensures joined { OnTrue result
        (Joins runs.old.items taken.old runs.new.items taken.new at) }
    ensures unchanged { OnFalse result
        (AreUnchanged runs.old.items taken.old runs.new.items taken.new) }
{
    if at == 0 {
        return false;
    }
    let front = taken.get(at - 1);
    let back = taken.get(at);
    if !can_join(runs, front, back) || !move_text(runs, front.run) {
        return false;
    }
    taken.set(
        at - 1,
        Entry {
            len: front.len + back.len,
            ..front
        },
    );
    taken.remove(at);
    true
}

/// The second units can go on in the run of the first ones, if both are texts.
fn can_join(runs: &[Run], front: Entry, back: Entry) -> bool
    requires front { IsTakenOf runs.now front }
    requires back { IsTakenOf runs.now back }
    ensures goes_on { OnTrue result (GoesOn front back) }
    ensures at_ends { OnTrue result (AreAtEnds runs.now front back) }
{
    are_at_ends(runs, front, back) && goes_on(front, back)
}

/// The first units are the last ones of their run, and the others are all units of the last run.
fn are_at_ends(runs: &[Run], front: Entry, back: Entry) -> bool
    requires front { IsTakenOf runs.now front }
    requires back { IsTakenOf runs.now back }
    ensures { OnTrue result (AreAtEnds runs.now front back) }
{
    if front.is_gone || back.is_gone || back.run + 1 != runs.len() {
        return false;
    }
    // A run begins at a clock, so no unit of it has an offset above its clock.
    front.offset <= front.id.clock
        && back.offset == 0
        && ends_run(runs, front)
        && ends_run(runs, back)
}

/// The units are the last ones of their run.
fn ends_run(runs: &[Run], entry: Entry) -> bool
    requires entry { IsTakenOf runs.now entry }
    requires told { entry.is_gone ≡ false }
    ensures { OnTrue result (EndsRun runs.now entry) }
{
    entry.offset + entry.len == runs[entry.run].len()
}

/// The second units have the next clocks, the last of the first ones as their left origin and the
/// same right origin, and stand in the same list.
fn goes_on(front: Entry, back: Entry) -> bool
    requires some { 0 < front.len }
    requires end { IsClock (front.id.clock + front.len) }
    ensures { OnTrue result (GoesOn front back) }
{
    back.id.client.0 == front.id.client.0
        && back.id.clock == front.id.clock + front.len
        && is_last_of(back.left, front)
        && is_same_neighbour(back.right, front.right)
        && are_in_one_list(front.place, back.place)
}

/// The left origin is the last of the units.
fn is_last_of(left: Option<Id>, entry: Entry) -> bool
    requires some { 0 < entry.len }
    requires end { IsClock (entry.id.clock + entry.len) }
    ensures { OnTrue result (left ≡ Some (later_id entry.id (entry.len - 1))) }
{
    match left {
        None => false,
        Some(left) => {
            left.client.0 == entry.id.client.0 && left.clock == entry.id.clock + (entry.len - 1)
        }
    }
}

/// Both are absent, or both are there and one.
fn is_same_neighbour(a: Option<Id>, b: Option<Id>) -> bool
    ensures { OnTrue result (a ≡ b) }
{
    match (a, b) {
        (None, None) => true,
        (Some(a), Some(b)) => a.client.0 == b.client.0 && a.clock == b.clock,
        _ => false,
    }
}

/// Both are one list.
fn are_in_one_list(front: Place, back: Place) -> bool
    ensures { OnTrue result ((is_listed_at front ≡ true) × (back ≡ front)) }
{
    match (front, back) {
        (Place::In(m), Place::In(n)) => m == n,
        _ => false,
    }
}

/// Puts the text of the last run behind that of another, and drops the last run. It says whether
/// both were texts and there was memory.
fn move_text(runs: &mut Vec<Run>, to: usize) -> bool
    requires { to + 1 < length runs.old.items }
    ensures moved { OnTrue result (MovesText runs.old.items runs.new.items to) }
    ensures unchanged { OnFalse result (runs.new.items ≡ runs.old.items) }
{
    let Some(last) = runs.pop() else {
        return false;
    };
    if append_text(&mut runs[to], &last) {
        return true;
    }
    runs.push_reserved(last);
    false
}

/// Appends the other's text, and says whether both were texts and there was memory.
fn append_text(run: &mut Run, other: &Run) -> bool
    ensures appended { OnTrue result (AppendsText run.old other.now run.new) }
    ensures unchanged { OnFalse result (run.new ≡ run.old) }
{
    let Content::Str(more) = &other.content else {
        return false;
    };
    match &mut run.content {
        Content::Str(units) => units.append(more).is_ok(),
        _ => false,
    }
}
