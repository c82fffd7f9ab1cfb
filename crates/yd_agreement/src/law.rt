//! A law of comparing runs, the contract of an empty function.

ghost use Rattle.yd_agreement.specs.Law.{NextIsComparedWithCover};

/// To find the first id on which runs differ, each next run is compared with the one that ends last.
pub fn next_is_compared_with_cover()
    ensures { NextIsComparedWithCover }
{}
