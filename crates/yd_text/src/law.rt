//! What each edit of a text or a map shows, each law the contract of a function that does nothing.
//!
//! Each is about a replica before an edit and after it (`IsEdit` of `yd_doc`, which `insert`,
//! `embed`, `delete` and `format` ensure), where the text is quiet before: what is received is
//! honest, nothing waits, no deletion either, and the list's parent is a root or live
//! (`IsQuietText` of `yd_editing`). Of a map this is asked of its own list, the one without a key. Of
//! `list_insert` and `child_insert` it is [`insertions_show`].
//!
//! Every other list *stays* (`OtherListsStay` of `yd_editing`). It has the units that it had. And a
//! unit of it is deleted afterwards just where it was deleted before, or where the item to which the
//! list belongs is deleted afterwards.

ghost use Rattle.yd_text.specs.Law.{InsertionsShow, DeletionsShow, FormatsShow};
ghost use Rattle.yd_text.specs.TreeLaw.{SettingsShow, RemovalsShow};

use yd_doc::Replica;
use yd_doc::law::own_document_is_replicas;
use yd_editing::law::{deletes_stand, formats_stand, inserts_stand, sets_stand, unsets_stand};

/// After an insertion or an embed the live counted units are the old ones with the new ones at the
/// index. Every other list stays, and nothing more is deleted.
pub fn insertions_show(before: &Replica, after: &Replica)
    ensures { InsertionsShow before.now after.now }
{
    own_document_is_replicas(before);
    own_document_is_replicas(after);
    inserts_stand();
}

/// After a deletion they are the old ones without those named, and every other list stays.
pub fn deletions_show(before: &Replica, after: &Replica)
    ensures { DeletionsShow before.now after.now }
{
    own_document_is_replicas(before);
    own_document_is_replicas(after);
    deletes_stand();
}

/// After a format they are the old ones, and so many from the index on have the value for the key.
/// The others keep their value, all keep theirs for every other key, and every other list stays.
pub fn formats_show(before: &Replica, after: &Replica)
    ensures { FormatsShow before.now after.now }
{
    own_document_is_replicas(before);
    own_document_is_replicas(after);
    formats_stand();
}

/// After a value or a type is set under a key it stands there. Every other key of the parent has the
/// unit that it had, and every other list stays.
pub fn settings_show(before: &Replica, after: &Replica)
    ensures { SettingsShow before.now after.now }
{
    own_document_is_replicas(before);
    own_document_is_replicas(after);
    sets_stand();
}

/// After what stands under a key is removed the key has no value. Every other key of the parent has
/// the unit that it had, and every other list stays.
pub fn removals_show(before: &Replica, after: &Replica)
    ensures { RemovalsShow before.now after.now }
{
    own_document_is_replicas(before);
    own_document_is_replicas(after);
    unsets_stand();
}
