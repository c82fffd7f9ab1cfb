//! The laws of messages and of awareness, each the contract of an empty function.

ghost use Rattle.yd_sync.specs.MessageLaw.{MessagesAreOne, MessagesAreRead};
ghost use Rattle.yd_sync.specs.TableLaw.{OwnStateStays, TablesJoin, TablesMeet, TakenSuffice};

/// Bytes are read as the message that they stand for, or refused for their first deviation.
pub fn messages_are_read()
    ensures { MessagesAreRead }
{}

/// Bytes stand for one message, or have one first deviation, and never both.
pub fn messages_are_one()
    ensures { MessagesAreOne }
{}

/// Of each client but one's own a table has what remains of all entries that came or are answered.
pub fn tables_join()
    ensures { TablesJoin }
{}

/// Two tables that took the same entries, in any order and repeated, have the same of each client but
/// their own, where no two entries disagree.
pub fn tables_meet()
    ensures { TablesMeet }
{}

/// The entries that a table took bring it to the same as all that came.
pub fn taken_suffice()
    ensures { TakenSuffice }
{}

/// Nobody else's entry without a state, and no time, ends one's own state.
pub fn own_state_stays()
    ensures { OwnStateStays }
{}
