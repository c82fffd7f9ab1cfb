//! A line's change, carried out.

ghost use Rattle.std.specs.Prelude.{◌≡◌, None, IfOk, IfErr, IsTrue, OnOk, OnErr};
ghost use Rattle.yd_any.specs.AnyView.{any_tree};
ghost use Rattle.yd_any.specs.Tree.{no_trees, tree};
ghost use Rattle.yd_any.specs.Valid.{is_valid_any};
ghost use Rattle.yd_ops.specs.Valid.{IsParent};
ghost use Rattle.yd_ops.specs.Value.{any};
ghost use Rattle.yd_ops.specs.View.{content_value, update_value};
ghost use Rattle.yd_script.specs.Line.{IsValidChange, change_of};
ghost use Rattle.yd_making.specs.Steps.{IsCause};
ghost use Rattle.yd_making.specs.declared.fault.EditFault.TheVariants.{NoMemory as NoRoom};
ghost use Rattle.yd_doc.specs.Editing.{own_basis, IsEdit};
ghost use Rattle.yd_doc.specs.Kept.{own_document};
ghost use Rattle.yd_playing.specs.Asked.{change_steps, change_refusal};

use std::alloc::Global;
use yd_any::{Any, AnyList};
use yd_doc::{EditFault, Replica};
use yd_ops::{Content, List, Parent, Update};
use yd_script::Change;
use yd_text::{child_insert, delete, embed, format, insert, list_insert, map_remove, map_set};

/// Carries out a change, as one edit of the parent's text, list or map. After a refusal the replica is
/// as before.
pub(crate) fn carry_out(
    alloc: Global,
    replica: &mut Replica,
    parent: Parent,
    change: Change,
) -> Result<Update, EditFault>
    requires parent { IsParent parent }
    requires valid { IsValidChange (change_of change) }
    ensures done { IfOk result (λ update. IsEdit replica.old replica.new
        (change_steps (own_document replica.old) parent (change_of change)) (update_value update)) }
    ensures accepted { OnOk result
        (change_refusal (own_basis replica.old) parent (change_of change) ≡ None) }
    ensures refused { IfErr result (λ fault. IsCause fault
        (change_refusal (own_basis replica.old) parent (change_of change))) }
    ensures unchanged { OnErr result (replica.new ≡ replica.old) }
{
    let list = List { parent, key: None };
    match change {
        Change::Insert { index, text } => insert(alloc, replica, &list, index, text.as_str()),
        Change::Embed { index, value } => embed(alloc, replica, &list, index, value),
        Change::Delete { index, len } => delete(alloc, replica, &list, index, len),
        Change::Format {
            index,
            len,
            key,
            value,
        } => format(alloc, replica, &list, index, len, &key, value),
        Change::Push { index, values } => list_insert(alloc, replica, &list, index, values),
        Change::Child { index, kind } => child_insert(alloc, replica, &list, index, kind),
        Change::Set { key, value } => {
            let content = content_of(alloc, value)?;
            map_set(alloc, replica, &list.parent, &key, content)
        }
        Change::SetType { key, kind } => {
            map_set(alloc, replica, &list.parent, &key, Content::Nested(kind))
        }
        Change::Unset { key } => map_remove(alloc, replica, &list.parent, &key),
    }
}

/// The content of one any-value.
fn content_of(alloc: Global, value: Any) -> Result<Content, EditFault>
    requires { IsTrue (is_valid_any (any_tree value)) }
    ensures content { IfOk result (λ content.
        content_value content ≡ any (tree (any_tree value) no_trees)) }
    ensures memory { IfErr result (λ fault. fault ≡ NoRoom) }
{
    let mut values = AnyList::new(alloc);
    match values.push(value) {
        Ok(_) => Ok(Content::Any(values)),
        Err(_) => Err(EditFault::NoMemory),
    }
}
