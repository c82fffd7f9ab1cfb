//! The laws of the edit rules as they are judged, each the contract of an empty function.

ghost use Rattle.yd_honesty.specs.Law.{DishonestIsSmallest, LaterUnitsKeep};

/// No id breaks the edit rules exactly where what is held keeps them; else it is the smallest that
/// does.
pub fn dishonest_is_smallest()
    ensures { DishonestIsSmallest }
{}

/// In a list with a strict order, the later units of a run keep the edit rules if the first one
/// does.
pub fn later_units_keep()
    ensures { LaterUnitsKeep }
{}
