//! What a cut and an addition do to the units of lists, where a unit stands, and which are marked as
//! deleted.

ghost use Rattle.yd_arena.specs.Law.{CutsKeepUnits, AddsPutUnits, UnitsStandOnce};
ghost use Rattle.yd_arena.specs.MarksLaw.{MarksAreUnits, BordersAre, CutsKeepMarks, AddsKeepMarks};

/// Where a run is cut, each list has the units that it had, in their order.
pub fn cuts_keep_units()
    ensures { CutsKeepUnits }
{}

/// A run that is added has all its units directly behind the place, and the others stand as before.
pub fn adds_put_units()
    ensures { AddsPutUnits }
{}

/// A unit stands in one run only, at one place of it, and its clock is below the next one of its client.
pub fn units_stand_once()
    ensures { UnitsStandOnce }
{}

/// Where a span is marked, the marked units are those that were marked before, and those of the span.
pub fn marks_are_units()
    ensures { MarksAreUnits }
{}

/// A span parts no run where one begins at its first clock, and one at its end or the client's clocks
/// end there; a cut leaves this so.
pub fn borders_are()
    ensures { BordersAre }
{}

/// A cut marks no unit, and unmarks none.
pub fn cuts_keep_marks()
    ensures { CutsKeepMarks }
{}

/// The units of a run that is added are marked just where its mark says so, and the others as before.
pub fn adds_keep_marks()
    ensures { AddsKeepMarks }
{}
