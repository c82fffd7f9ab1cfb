//! Text units one after another, with U+FFFD for each half whose partner does not stand beside it.

ghost use Rattle.std.specs.Prelude.{◌≡◌, ◌∷◌, ◌++◌, [], false, List, IfOk, OnOk};
ghost use Rattle.yd_ids.specs.Ids.{is_same};
ghost use Rattle.yd_ops.specs.Operation.{later_id};
ghost use Rattle.yd_ops.specs.Pairs.{is_high as is_high_unit, is_low as is_low_unit};
ghost use Rattle.yd_view.specs.declared.halves.Seen.{Seen as SeenUnit};
ghost use Rattle.yd_view.specs.Halves.{is_unit_and, joins as are_joined, joins_after, shown_last, shown_seen, text_left, text_of_seen, TakesIn, StepsBy};

use crate::fault::NoMemory;
use std::alloc::Global;
use yd_ids::Id;

/// A live unit, as text sees it.
#[derive(Clone, Copy)]
pub struct Seen {
    /// Its id.
    pub id: Id,
    /// The unit, where it is one of text.
    pub unit: Option<u16>,
}

/// The text of the units that came so far, but for the last, which waits for what stands behind it.
#[derive(Drop)]
pub struct Halves {
    /// The text units.
    pub shown: Vec<u16>,
    /// The unit that came last.
    pub last: Option<Seen>,
    /// The unit before it is its partner.
    pub joined: bool,
}

/// The first and the last of the numbers that are the first half of a pair.
const FIRST_HIGH: u16 = 0xD800;

const LAST_HIGH: u16 = 0xDBFF;
/// The first and the last of the numbers that are the second half of a pair.
const FIRST_LOW: u16 = 0xDC00;

const LAST_LOW: u16 = 0xDFFF;
/// What stands for a half without its partner.
const REPLACEMENT: u16 = 0xFFFD;

impl Halves {
    /// No unit came yet.
    pub fn new(alloc: Global) -> Halves
        ensures { (rest : List SeenUnit) → text_left result rest ≡ text_of_seen false rest }
    {
        Halves {
            shown: Vec::new(alloc),
            last: None,
            joined: false,
        }
    }

    /// The next live unit.
    pub fn take(&mut self, seen: Seen) -> Result<(), NoMemory>
        ensures takes { OnOk result (TakesIn self.old self.new (seen ∷ [])) }
        ensures steps { OnOk result (StepsBy self.old self.new seen) }
    {
        let joined = is_joined(self.last, seen);
        show_last(&mut self.shown, self.last, self.joined, joined)?;
        self.joined = joined;
        self.last = Some(seen);
        Ok(())
    }

    /// All units of the text, where no more come.
    pub fn finish(mut self) -> Result<Vec<u16>, NoMemory>
        ensures { IfOk result (λ units. units.items ≡ text_left self []) }
    {
        show_last(&mut self.shown, self.last, self.joined, false)?;
        Ok(self.shown)
    }
}

/// The unit before is the partner of a unit.
fn is_joined(last: Option<Seen>, seen: Seen) -> bool
    ensures { result ≡ joins_after last seen }
{
    match last {
        None => false,
        Some(last) => joins(last, seen),
    }
}

/// The two are the halves of one pair: a high one, and a low one with the next clock.
fn joins(high: Seen, low: Seen) -> bool
    ensures { result ≡ are_joined high low }
{
    is_high_half(high.unit) && is_low_half(low.unit) && is_next(high.id, low.id)
}

/// The second id is the one behind the first.
fn is_next(id: Id, next: Id) -> bool
    ensures { result ≡ is_same next (later_id id 1) }
{
    next.client == id.client && next.clock > id.clock && next.clock - id.clock == 1
}

/// It is a text unit, and the first half of a pair.
fn is_high_half(unit: Option<u16>) -> bool
    ensures { result ≡ is_unit_and is_high_unit unit }
{
    match unit {
        None => false,
        Some(unit) => is_high(unit),
    }
}

/// It is a text unit, and the second half of a pair.
fn is_low_half(unit: Option<u16>) -> bool
    ensures { result ≡ is_unit_and is_low_unit unit }
{
    match unit {
        None => false,
        Some(unit) => is_low(unit),
    }
}

/// The unit is the first half of a pair.
fn is_high(unit: u16) -> bool
    ensures { result ≡ is_high_unit unit }
{
    FIRST_HIGH <= unit && unit <= LAST_HIGH
}

/// The unit is the second half of a pair.
fn is_low(unit: u16) -> bool
    ensures { result ≡ is_low_unit unit }
{
    FIRST_LOW <= unit && unit <= LAST_LOW
}

/// Appends the unit that came last, where one did, as it is shown between two others.
fn show_last(
    shown: &mut Vec<u16>,
    last: Option<Seen>,
    joined: bool,
    joins: bool,
) -> Result<(), NoMemory>
    ensures { OnOk result (shown.new.items ≡ shown.old.items ++ shown_last joined last joins []) }
{
    match last {
        None => Ok(()),
        Some(last) => show_unit(shown, last.unit, joined, joins),
    }
}

/// Appends a unit as it is shown between two others; what is no text shows nothing.
fn show_unit(
    shown: &mut Vec<u16>,
    unit: Option<u16>,
    joined: bool,
    joins: bool,
) -> Result<(), NoMemory>
    ensures { OnOk result (shown.new.items ≡ shown.old.items ++ shown_seen joined unit joins []) }
{
    if let Some(unit) = unit {
        let is_lone = is_high(unit) && !joins || is_low(unit) && !joined;
        shown.push(if is_lone { REPLACEMENT } else { unit })?;
    }
    Ok(())
}
