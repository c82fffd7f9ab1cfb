//! The laws of what is told of updates, each the contract of an empty function.

ghost use Rattle.yd_checking.specs.Law.{FindingsConverge};

/// Updates that agree and are the same changes are told alike, in any order, repeated or merged.
/// Where they may disagree, all is told alike but that; and where an id breaks the edit rules, all but
/// how many units are deleted.
pub fn findings_converge()
    ensures { FindingsConverge }
{}
