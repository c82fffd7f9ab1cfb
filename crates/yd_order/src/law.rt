//! The laws of the order and of the integration scan, each the contract of an empty function.

ghost use Rattle.yd_meaning.specs.Law.{HonestListsFit, HonestOrderIsStrict, HonestListsGrowInOrder};
ghost use Rattle.yd_order.specs.Law.{CountsDecide, SeatsDecide};
ghost use Rattle.yd_origins.specs.Law.{LinesDecide, OneIsBefore, OrderIsStrict, PartKeepsOrder, ScanKeepsOrder, ScansGiveOrder, SortingGivesOrder};

use yd_origins::law;

/// In every table how many rows are before each decides the order, and ties go by id.
pub fn counts_decide()
    ensures { CountsDecide }
{}

/// In every table the rows stand in its order where seats say for each two which is in front, and
/// each stands behind its left, in front of its right, and for a reason in front of each later one.
pub fn seats_decide()
    ensures { SeatsDecide }
{}

/// Of two rows of a table the first of the six lines that applies decides which is before.
pub fn lines_decide()
    ensures { LinesDecide }
{
    law::lines_decide();
}

/// Of two rows of a table one is before the other.
pub fn one_is_before()
    ensures { OneIsBefore }
{
    law::one_is_before();
}

/// In a table that fits the order is strict, and each row stands between its left and its right.
pub fn order_is_strict()
    ensures { OrderIsStrict }
{
    law::order_is_strict();
}

/// A part that has the lefts and rights of its rows is a table that fits, with the same order.
pub fn part_keeps_order()
    ensures { PartKeepsOrder }
{
    law::part_keeps_order();
}

/// The sorted rows are the one list of them in order.
pub fn sorting_gives_order()
    ensures { SortingGivesOrder }
{
    law::sorting_gives_order();
}

/// In a table that fits the scan puts the new row where the order has it.
pub fn scan_keeps_order()
    ensures { ScanKeepsOrder }
{
    law::scan_keeps_order();
}

/// Growing by scans, in any arrangement, gives the sorted rows.
pub fn scans_give_order()
    ensures { ScansGiveOrder }
{
    law::scans_give_order();
}

/// Where what is held keeps the edit rules, what of it is not lost is an honest set, and each list of
/// this is a table that fits.
pub fn honest_lists_fit()
    ensures { HonestListsFit }
{
    yd_meaning::law::honest_lists_fit();
}

/// Where what is held keeps the edit rules, the order of each list of what is not lost is strict.
pub fn honest_order_is_strict()
    ensures { HonestOrderIsStrict }
{
    yd_meaning::law::honest_order_is_strict();
}

/// Where what is held keeps the edit rules, integration scans give each list of what is not lost.
pub fn honest_lists_grow_in_order()
    ensures { HonestListsGrowInOrder }
{
    yd_meaning::law::honest_lists_grow_in_order();
}
