//! What calls of a store do together.

ghost use Rattle.yd_store.specs.Law.{TakenBackIsAsBefore, LiveIsCounted};

/// Where a run is added to a list and taken back, the store has the operations that it had, in
/// their order, with their marks.
pub fn taken_back_is_as_before()
    ensures { TakenBackIsAsBefore }
{}

/// The number that `live` answers of a list is that of its operations that count in lengths and are
/// not marked as deleted, where what is spelled deleted or gone is marked. The premises on the store
/// are facts of each one (`Store::is_sound`).
pub fn live_is_counted()
    ensures { LiveIsCounted }
{}
