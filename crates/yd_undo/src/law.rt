//! The laws of undo.

ghost use Rattle.yd_undo.specs.Law.{EntriesAreOfUpdates, UndoRemovesItsOwn, UndosAreRefusedForMaking};

/// An undo removes just the live ids that its entry inserted.
pub fn undo_removes_its_own()
    ensures { UndoRemovesItsOwn }
{}

/// An undo is refused for what it makes again: a pair that is parted (`InsidePair`), own units that wait
/// (`OwnWaiting`), or a run that would end past the last clock (`ClockFull`). It is never refused for
/// a place or for what it removes.
pub fn undos_are_refused_for_making()
    ensures { UndosAreRefusedForMaking }
{}

/// The entry that is noted of an update has inserted the ids of its operations, and has deleted what
/// the update deletes by name and was not noted before; no other ids.
pub fn entries_are_of_updates()
    ensures { EntriesAreOfUpdates }
{}
