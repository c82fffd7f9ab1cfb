//! What an undo shows, each law the contract of a function that does nothing.
//!
//! Each is about a replica before an undo and after it (`IsUndone` of `yd_undo`, which `Undo::undo`
//! and `Undo::redo` ensure). The text is quiet before: what is received is honest, nothing waits, no
//! deletion either, and the list's parent is a root or live (`IsQuietText` of `yd_editing`). The first
//! two are about an entry of this text alone (`IsOfText`), the others about an entry of any lists.

ghost use Rattle.yd_restoring.specs.Each.{EachUndoShows, EditsAreUndone, EachRedoShows};
ghost use Rattle.yd_restoring.specs.Keyed.{KeysUndoShow, KeysAreUndone, KeysRedoShow, SettingsAreUndone, UnsettingsAreUndone};
ghost use Rattle.yd_restoring.specs.Law.{UndosShow, RedosShow};

use yd_doc::Replica;
use yd_doc::law::{own_document_is_replicas, received_can_be_grouped};

/// After an undo the text shows, each at its place, the units that were live and that the entry did
/// not insert, and those that it deleted, but for types. Each holds what it held, or U+FFFD where it
/// is half of a pair.
pub fn undos_show(before: &Replica, after: &Replica)
    ensures { UndosShow before.now after.now }
{
    own_document_is_replicas(before);
    own_document_is_replicas(after);
    received_can_be_grouped(before);
}

/// After an undo and its redo the text shows what it showed before both, if the entry inserted no
/// type that is live. So it is with an edit of the text alone, where all that was noted before is
/// deleted. Each unit holds what it held, or U+FFFD where it is half of a pair.
pub fn redos_show(before: &Replica, between: &Replica, after: &Replica)
    ensures { RedosShow before.now between.now after.now }
{
    own_document_is_replicas(before);
    own_document_is_replicas(between);
    own_document_is_replicas(after);
    received_can_be_grouped(before);
    received_can_be_grouped(between);
}

/// After the undo of an entry of any lists each list without a key shows what `undos_show` says, if
/// the list's parent is still live.
pub fn each_undo_shows(before: &Replica, after: &Replica)
    ensures { EachUndoShows before.now after.now }
{
    own_document_is_replicas(before);
    own_document_is_replicas(after);
    received_can_be_grouped(before);
}

/// After an edit of any lists and its undo each list without a key shows what it showed before both,
/// if what the edit removed there was live and no type, and the list's parent is still live. An undo
/// is an edit too, so this is also said of an undo and its redo.
pub fn edits_are_undone(before: &Replica, between: &Replica, after: &Replica)
    ensures { EditsAreUndone before.now between.now after.now }
{
    own_document_is_replicas(before);
    own_document_is_replicas(between);
    own_document_is_replicas(after);
    received_can_be_grouped(between);
}

/// After an undo of an entry of any lists and its redo each list without a key shows what it showed
/// before both, if the entry inserted no type there that is live, and the list's parent is still live.
/// All that was noted before the undo was deleted.
pub fn each_redo_shows(before: &Replica, between: &Replica, after: &Replica)
    ensures { EachRedoShows before.now between.now after.now }
{
    edits_are_undone(before, between, after);
    own_document_is_replicas(before);
    received_can_be_grouped(before);
}

/// After the undo of an entry of any lists a key of a map shows the last of what the entry deleted
/// under it. If that is nothing, it shows what it showed, unless the entry inserted this.
pub fn keys_undo_show(before: &Replica, after: &Replica)
    ensures { KeysUndoShow before.now after.now }
{
    own_document_is_replicas(before);
    own_document_is_replicas(after);
    received_can_be_grouped(before);
}

/// After an edit of any lists and its undo a key shows what it showed before both, if what the edit
/// removed under it was live and no type, if it removed what was live where it made something there,
/// and the map is still live. An undo is an edit too, so this is also said of an undo and its redo.
pub fn keys_are_undone(before: &Replica, between: &Replica, after: &Replica)
    ensures { KeysAreUndone before.now between.now after.now }
{
    own_document_is_replicas(before);
    own_document_is_replicas(between);
    own_document_is_replicas(after);
    received_can_be_grouped(between);
}

/// After an undo of an entry of any lists and its redo a key shows what it showed before both, if what
/// was live under it is no type and the entry inserted it, or the undo makes nothing there, and if
/// the map is still live. All that was noted before the undo was deleted.
pub fn keys_redo_show(before: &Replica, between: &Replica, after: &Replica)
    ensures { KeysRedoShow before.now between.now after.now }
{
    keys_are_undone(before, between, after);
    own_document_is_replicas(before);
    received_can_be_grouped(before);
}

/// After `map_set` of `yd_text` and its undo the key shows what it showed before both, if what was
/// live there was no type, and the map is still live.
pub fn settings_are_undone(before: &Replica, between: &Replica, after: &Replica)
    ensures { SettingsAreUndone before.now between.now after.now }
{
    keys_are_undone(before, between, after);
}

/// So it is after `map_remove` and its undo.
pub fn unsettings_are_undone(before: &Replica, between: &Replica, after: &Replica)
    ensures { UnsettingsAreUndone before.now between.now after.now }
{
    keys_are_undone(before, between, after);
}
