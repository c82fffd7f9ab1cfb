//! The laws of a store while held operations come into it and are deleted, each the contract of an
//! empty function.

ghost use Rattle.yd_kept.specs.Marking.{PartingAndMarkingDeletes};
ghost use Rattle.yd_kept.specs.Filling.{FillingStarts, FillingStays, FillingIsKept, FillingAddsList, FillingAddsRun, FillingAddsLost, FillingGoesOn, FillingEnds};
ghost use Rattle.yd_kept.specs.Back.{GoingBackGoesOn, GoingBackIsAgain};
ghost use Rattle.yd_kept.specs.Telling.{ListsTellUnits, FilledListsAreGrown};

/// Where runs are parted first and then marked, just the units of the spans are deleted besides,
/// and nothing else has changed.
pub fn parting_and_marking_deletes()
    ensures { PartingAndMarkingDeletes }
{}

/// A store without lists and units is a start, whatever is held.
pub fn filling_starts()
    ensures { FillingStarts }
{}

/// What is filled stays so when more is held.
pub fn filling_stays()
    ensures { FillingStays }
{}

/// A change that keeps all rows keeps the lists filled.
pub fn filling_is_kept()
    ensures { FillingIsKept }
{}

/// A new list of a new name keeps the lists filled.
pub fn filling_adds_list()
    ensures { FillingAddsList }
{}

/// A run that comes next makes its list grow by scans.
pub fn filling_adds_run()
    ensures { FillingAddsRun }
{}

/// A run that is lost changes no list.
pub fn filling_adds_lost()
    ensures { FillingAddsLost }
{}

/// From step to step the lists have grown by scans, and new ones from nothing.
pub fn filling_goes_on()
    ensures { FillingGoesOn }
{}

/// Clients whose units are taken back, one after another, let a store go back.
pub fn going_back_goes_on()
    ensures { GoingBackGoesOn }
{}

/// A store that goes back to earlier clocks has the lists of that time again, in their order.
pub fn going_back_is_again()
    ensures { GoingBackIsAgain }
{}

/// Once the store has all that is held, its lists are whole.
pub fn filling_ends()
    ensures { FillingEnds }
{}

/// The operations of a list are its units, in their order.
pub fn lists_tell_units()
    ensures { ListsTellUnits }
{}

/// A document that tells the lists of a filled store has grown lists.
pub fn filled_lists_are_grown()
    ensures { FilledListsAreGrown }
{}
