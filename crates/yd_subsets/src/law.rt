//! The law of parts of sets.

ghost use Rattle.yd_subsets.specs.Part.{PartsAreTheirIds};

/// A part is a set, it has those ids of the spans that pass the test, and no other set has just
/// these.
pub fn parts_are_their_ids()
    ensures { PartsAreTheirIds }
{}
