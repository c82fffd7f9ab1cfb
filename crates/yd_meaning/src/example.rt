//! Small documents, computed by the checker: what is held, live and shown of a few operations.

ghost use Rattle.yd_meaning.specs.Example.{TwoValues, NestedText, MissingOrigin, EditRules};
ghost use Rattle.yd_meaning.specs.Collected.{AllDeleted, MiddleDeleted, ListGone, OriginGone};
ghost use Rattle.yd_meaning.specs.GrownExample.{GrownLists};

/// Of two values that clients set under one key, the greater client's is live, and the other is deleted.
pub fn two_values()
    ensures { TwoValues }
{}

/// What lies in a nested type is deleted with it.
pub fn nested_text()
    ensures { NestedText }
{}

/// A unit whose left origin is missing waits, and is held with it.
pub fn missing_origin()
    ensures { MissingOrigin }
{}

/// A unit that is put behind another keeps the edit rules, and one that ignores its maker's own unit breaks them.
pub fn edit_rules()
    ensures { EditRules }
{}

/// Units that an update spells deleted are so in both orders, and stand in their list.
pub fn all_deleted()
    ensures { AllDeleted }
{}

/// A text of which the middle was deleted shows the rest, beside the text as it was too.
pub fn middle_deleted()
    ensures { MiddleDeleted }
{}

/// A gone unit is held and lost in all orders.
pub fn list_gone()
    ensures { ListGone }
{}

/// A unit whose left origin is gone is held and lost.
pub fn origin_gone()
    ensures { OriginGone }
{}

/// A list grows into the origin order, but where the edit rules are broken it need not.
pub fn grown_lists()
    ensures { GrownLists }
{}
