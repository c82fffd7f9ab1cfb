//! The laws of the fields, each the contract of an empty function.

ghost use Rattle.yd_fields.specs.Law.{FieldsComeBack, LimitsHold, PlacesDoNotMatter};

/// The fields that are written of an update or a vector are those that reading wants, in any format,
/// and make it again.
pub fn fields_come_back()
    ensures { FieldsComeBack }
{}

/// What fields make does not depend on the places where they stand.
pub fn places_do_not_matter()
    ensures { PlacesDoNotMatter }
{}

/// A limit on structs holds of all blocks of an update together.
pub fn limits_hold()
    ensures { LimitsHold }
{}
