//! The laws of the document that a state has, and of placing, each the contract of an empty function.

ghost use Rattle.yd_state.specs.Law.{DocumentIsOwn, DocumentIsDefined};
ghost use Rattle.yd_state.specs.PlacingLaw.{EntriesCanBePlaced, KeepingKeepsAll, StoreTellsLists};

/// The document is one that a replica may have of what it received.
pub fn document_is_own()
    ensures { DocumentIsOwn }
{}

/// Where what is held keeps the edit rules, it is the document that the received operations and
/// deletions define, with their orders and their delete set.
pub fn document_is_defined()
    ensures { DocumentIsDefined }
{}

/// What became held can be placed: in a store with all that was held before, or in an empty one.
pub fn entries_can_be_placed()
    ensures { EntriesCanBePlaced }
{}

/// Where no unit changes, a store has just what is held still.
pub fn keeping_keeps_all()
    ensures { KeepingKeepsAll }
{}

/// A document that tells the lists of such a store has lists that grew by scans; where the edit
/// rules are kept these are the lists that what is held defines.
pub fn store_tells_lists()
    ensures { StoreTellsLists }
{}
