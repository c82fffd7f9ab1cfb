//! The laws of units and texts, each the contract of an empty function.

ghost use Rattle.yd_units.specs.Law.{TextsComeBack, UnitsComeBack, HalvesAreShown, WholesStayWhole};

/// A text has whole units, and they make the same text again.
pub fn texts_come_back()
    ensures { TextsComeBack }
{}

/// Whole units make a text that has the same units again.
pub fn units_come_back()
    ensures { UnitsComeBack }
{}

/// A half without its partner is shown as U+FFFD, and changes nothing of what stands beside it.
pub fn halves_are_shown()
    ensures { HalvesAreShown }
{}

/// A cut that parts no pair leaves whole units whole, and so does joining them.
pub fn wholes_stay_whole()
    ensures { WholesStayWhole }
{}
