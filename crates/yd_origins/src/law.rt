//! The laws of the order from origins and of the integration scan, each the contract of an empty function.

ghost use Rattle.yd_origins.specs.Law.{LinesDecide, OneIsBefore, OrderIsStrict, PartKeepsOrder, SortingGivesOrder, NextRowFits, ScanMovesNone, ScanKeepsOrder, ScansGiveOrder, ScannedRunGoesWhole, NewRunStaysWhole};
ghost use Rattle.yd_origins.specs.SetLaw.{ListsFollowOrigins, HonestListsFit, HonestOrderIsStrict, HonestListsGrowInOrder, ClosedPartStaysHonest, ClosedPartDeletesNoMore, OrderIsOfPasts, MadeStaysHonest};

/// Of two rows of a table the first of the six lines that applies decides which is before.
pub fn lines_decide()
    ensures { LinesDecide }
{}

/// Of two rows of a table one is before the other.
pub fn one_is_before()
    ensures { OneIsBefore }
{}

/// In a table that fits the order is strict, and each row stands between its left and its right.
pub fn order_is_strict()
    ensures { OrderIsStrict }
{}

/// A part that has the lefts and rights of its rows is a table that fits, with the same order.
pub fn part_keeps_order()
    ensures { PartKeepsOrder }
{}

/// The sorted rows are the one list of them in order.
pub fn sorting_gives_order()
    ensures { SortingGivesOrder }
{}

/// A new row between two neighbours of the order stands there, and the table still fits.
pub fn next_row_fits()
    ensures { NextRowFits }
{}

/// For every table the scan puts the new row in and moves no other.
pub fn scan_moves_none()
    ensures { ScanMovesNone }
{}

/// In a table that fits the scan puts the new row where the order has it.
pub fn scan_keeps_order()
    ensures { ScanKeepsOrder }
{}

/// Growing by scans, in any arrangement, gives the sorted rows.
pub fn scans_give_order()
    ensures { ScansGiveOrder }
{}

/// A scanned run goes as its first unit goes.
pub fn scanned_run_goes_whole()
    ensures { ScannedRunGoesWhole }
{}

/// The later units of a new run stand directly behind its first.
pub fn new_run_stays_whole()
    ensures { NewRunStaysWhole }
{}

/// The list of an operation is its left origin's, else its right origin's, else the one that it carries.
pub fn lists_follow_origins<Name>()
    ensures { ListsFollowOrigins Name }
{}

/// The operations of one list of an honest set are a table that fits.
pub fn honest_lists_fit<Name>()
    ensures { HonestListsFit Name }
{}

/// On an honest set the order of each list is strict, and each operation stands between its origins.
pub fn honest_order_is_strict<Name>()
    ensures { HonestOrderIsStrict Name }
{}

/// On an honest set a list that grows by scans, in any arrangement, becomes the origin order.
pub fn honest_lists_grow_in_order<Name>()
    ensures { HonestListsGrowInOrder Name }
{}

/// A closed part of an honest set is honest, with the same order.
pub fn closed_part_stays_honest<Name>()
    ensures { ClosedPartStaysHonest Name }
{}

/// A closed part of an honest set deletes no more than the set.
pub fn closed_part_deletes_no_more<Name>()
    ensures { ClosedPartDeletesNoMore Name }
{}

/// The order of two operations depends on no operation outside their pasts.
pub fn order_is_of_pasts<Name>()
    ensures { OrderIsOfPasts Name }
{}

/// An operation made between two neighbours keeps a set honest, and stands directly behind its left.
pub fn made_stays_honest<Name>()
    ensures { MadeStaysHonest Name }
{}
