//! What the index is worth, where its entries are those of the runs at their places.

ghost use Rattle.yd_index.specs.Law.{IndexFinds, IndexIsExact, AddedIsHeld, CutIsHeld, CutKeepsUnits, CutKeepsOthers};

/// Each unit of a run has the run's place, and no other id has one.
pub fn index_finds()
    ensures { IndexFinds }
{}

/// An id is found exactly where its clock is below the next one of its client.
pub fn index_is_exact()
    ensures { IndexIsExact }
{}

/// With a run more and its entry, the entries are still those of the runs at their places.
pub fn added_is_held()
    ensures { AddedIsHeld }
{}

/// With a run cut in two and its entry with it, they are so too.
pub fn cut_is_held()
    ensures { CutIsHeld }
{}

/// A list that has the second part of a run behind the first has the units that it had.
pub fn cut_keeps_units()
    ensures { CutKeepsUnits }
{}

/// A list without the run that is cut has the units that it had, too.
pub fn cut_keeps_others()
    ensures { CutKeepsOthers }
{}
