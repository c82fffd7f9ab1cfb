//! The laws of edits, each the contract of an empty function.
//!
//! Those of single edits say of every other list that it *stays* (`OtherListsStay`). It has the units
//! that it had. And a unit of it is deleted afterwards just where it was deleted before, or where the
//! item to which the list belongs is deleted afterwards.

ghost use Rattle.yd_editing.specs.TextLaw.{QuietTextsStay, InsertsStand, DeletesStand, FormatsStand};
ghost use Rattle.yd_editing.specs.MapLaw.{SetsStand, UnsetsStand};
ghost use Rattle.yd_editing.specs.Scanned.{ScanPutsMade};
ghost use Rattle.yd_editing.specs.Law.{MadeUnitsStand, MadeRunsStand, StepsStand, RemovalsTell};
ghost use Rattle.yd_editing.specs.Law.{OwnEditsAreTaken, EditsAreTaken, EditsAreHeld, EditsDelete};
ghost use Rattle.yd_editing.specs.Law.{OwnEditsAreValid, EditsAreValid};

/// An operation that is made between two neighbours keeps an honest held set honest, and moves no
/// other.
pub fn made_units_stand()
    ensures { MadeUnitsStand }
{}

/// So does a run that is made at a place, and it stands there unit by unit.
pub fn made_runs_stand()
    ensures { MadeRunsStand }
{}

/// So does each step of an edit, and the lists are those that the steps evolve.
pub fn steps_stand()
    ensures { StepsStand }
{}

/// For every list, whether the edit rules are kept or not: the integration scan puts a made run
/// directly behind the unit behind which it is made.
pub fn scan_puts_made()
    ensures { ScanPutsMade }
{}

/// A removal that is refused names the smallest id that is not held.
pub fn removals_tell()
    ensures { RemovalsTell }
{}

/// The update of an edit that is not refused has new operations alone, and is taken as it is. So it
/// is over each document that a replica may have of what it received.
pub fn own_edits_are_taken()
    ensures { OwnEditsAreTaken }
{}

/// So it is over the defined document.
pub fn edits_are_taken()
    ensures { EditsAreTaken }
{}

/// Where nothing waits, all is held and honest after an edit, and the document has the lists that
/// the steps evolve.
pub fn edits_are_held()
    ensures { EditsAreHeld }
{}

/// The update of an edit is valid, and none of its runs has a made unit as its left origin. So it
/// is over each document that a replica may have of what it received.
pub fn own_edits_are_valid()
    ensures { OwnEditsAreValid }
{}

/// So it is over the defined document.
pub fn edits_are_valid()
    ensures { EditsAreValid }
{}

/// What was deleted is so after an edit, and so is what is named, overwritten, or of a deleted
/// parent.
pub fn edits_delete()
    ensures { EditsDelete }
{}

/// A text whose document is honest and waits for nothing stays so under each edit of it.
pub fn quiet_texts_stay()
    ensures { QuietTextsStay }
{}

/// After an insertion the live counted units are the old ones with the made ones at the index.
/// Every other list stays, and nothing more is deleted.
pub fn inserts_stand()
    ensures { InsertsStand }
{}

/// After a deletion they are the old ones without those named, and every other list stays.
pub fn deletes_stand()
    ensures { DeletesStand }
{}

/// After a format they are the old ones, and so many from the index on have the value for the key.
/// The others keep their value, all keep theirs for every other key, and every other list stays.
pub fn formats_stand()
    ensures { FormatsStand }
{}

/// After a content is set under a key it stands there. Every other key of the parent has the unit
/// that it had, and every other list stays.
pub fn sets_stand()
    ensures { SetsStand }
{}

/// After what stands under a key is removed the key has no value. Every other key of the parent has
/// the unit that it had, and every other list stays.
pub fn unsets_stand()
    ensures { UnsetsStand }
{}
