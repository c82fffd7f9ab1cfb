//! What is lent of a list beside its operations and what is marked, and the law of what is deleted
//! besides.

ghost use Rattle.yd_listing.specs.Lending.{ListsLendUnits};
ghost use Rattle.yd_listing.specs.Law.{DeletionsGoOn};

/// What is lent of a list is its operations, each with whether it is marked as deleted.
pub fn lists_lend_units()
    ensures { ListsLendUnits }
{}

/// With what is deleted besides all is deleted that must be, and nothing else, where it was so before.
pub fn deletions_go_on()
    ensures { DeletionsGoOn }
{}
