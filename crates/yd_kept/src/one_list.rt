//! The laws of lists in an arena while their operations come, each the contract of an empty function.

ghost use Rattle.yd_kept.specs.Placing.{RowsAreKept, SameRowsStay, RunsGrow, OtherListsStay};

/// All rows of each list stay where a run is cut, and where nothing changes but room.
pub fn rows_are_kept()
    ensures { RowsAreKept }
{}

/// A list whose rows are the same has the rows of its table as before.
pub fn same_rows_stay()
    ensures { SameRowsStay }
{}

/// A list into which the next run of its table goes has grown by scans.
pub fn runs_grow()
    ensures { RunsGrow }
{}

/// A list into which a run does not go has the rows of its table still.
pub fn other_lists_stay()
    ensures { OtherListsStay }
{}
