//! Values and types at an index of a list.

ghost use Rattle.std.specs.Prelude.{◌≡◌, None, IfOk, IfErr, OnOk, OnErr};
ghost use Rattle.yd_any.specs.AnyView.{any_trees};
ghost use Rattle.yd_ops.specs.Valid.{AreValidTrees, IsParent};
ghost use Rattle.yd_ops.specs.Value.{any, nested};
ghost use Rattle.yd_ops.specs.View.{update_value};
ghost use Rattle.yd_editing.specs.TextEdit.{insert_steps, insert_refusal};
ghost use Rattle.yd_making.specs.Steps.{IsCause};
ghost use Rattle.yd_doc.specs.Editing.{own_basis, IsEdit};
ghost use Rattle.yd_doc.specs.Kept.{own_document};

use crate::insert_content;
use std::alloc::Global;
use yd_any::AnyList;
use yd_doc::{EditFault, Replica};
use yd_ops::{Content, Kind, List, Update};

/// Inserts any-values directly behind the live counted unit before the index, or at the front. No
/// values make nothing, and the index is judged all the same. `NoPlace`, where the list's parent is no
/// type item that is held and there are values; `PastEnd` with the length, where the index is past it;
/// `InsidePair` with the index, where it parts a pair of text units; and else what `Replica::edit`
/// refuses. After a refusal the replica is as before (Yjs 13, insert of an array; which of the places
/// with the same shown list it takes is own).
pub fn list_insert(
    alloc: Global,
    replica: &mut Replica,
    list: &List,
    index: u64,
    values: AnyList,
) -> Result<Update, EditFault>
    requires parent { IsParent list.now.parent }
    requires valid { AreValidTrees (any_trees values) }
    ensures done { IfOk result (λ update. IsEdit replica.old replica.new
        (insert_steps (own_document replica.old) list.now index (any (any_trees values)))
        (update_value update)) }
    ensures accepted { OnOk result (insert_refusal (own_basis replica.old) list.now index
        (any (any_trees values)) ≡ None) }
    ensures refused { IfErr result (λ fault. IsCause fault
        (insert_refusal (own_basis replica.old) list.now index (any (any_trees values)))) }
    ensures unchanged { OnErr result (replica.new ≡ replica.old) }
{
    let update = insert_content(alloc, replica, list, index, Content::Any(values))?;
    Ok(update)
}

/// Inserts one type of this kind, which has no units yet, as `list_insert` does values (Yjs 13, insert
/// of a type).
pub fn child_insert(
    alloc: Global,
    replica: &mut Replica,
    list: &List,
    index: u64,
    kind: Kind,
) -> Result<Update, EditFault>
    requires { IsParent list.now.parent }
    ensures done { IfOk result (λ update. IsEdit replica.old replica.new
        (insert_steps (own_document replica.old) list.now index (nested kind))
        (update_value update)) }
    ensures accepted { OnOk result (insert_refusal (own_basis replica.old) list.now index
        (nested kind) ≡ None) }
    ensures refused { IfErr result (λ fault. IsCause fault
        (insert_refusal (own_basis replica.old) list.now index (nested kind))) }
    ensures unchanged { OnErr result (replica.new ≡ replica.old) }
{
    let update = insert_content(alloc, replica, list, index, Content::Nested(kind))?;
    Ok(update)
}
