//! Deletions.

ghost use Rattle.std.specs.Prelude.{◌≡◌, None, IfOk, IfErr, OnOk, OnErr};
ghost use Rattle.yd_ops.specs.View.{update_value};
ghost use Rattle.yd_editing.specs.TextEdit.{delete_steps, delete_refusal};
ghost use Rattle.yd_making.specs.Steps.{IsCause};
ghost use Rattle.yd_doc.specs.Editing.{own_basis, IsEdit};
ghost use Rattle.yd_doc.specs.Kept.{own_document};

use crate::ranges::units_between;
use crate::refusing::range_fault;
use std::alloc::Global;
use yd_doc::{EditFault, Replica};
use yd_ops::{List, Update};

/// Deletes so many live counted units from an index on, by name. `PastEnd` with the length, where
/// the end is past it; `InsidePair` with the first end of the range that parts a pair. After a
/// refusal the replica is as before (Yjs 13, delete of a text).
pub fn delete(
    alloc: Global,
    replica: &mut Replica,
    list: &List,
    index: u64,
    len: u64,
) -> Result<Update, EditFault>
    ensures done { IfOk result (λ update. IsEdit replica.old replica.new
        (delete_steps (own_document replica.old) list.now index len) (update_value update)) }
    ensures accepted { OnOk result
        (delete_refusal (own_basis replica.old) list.now index len ≡ None) }
    ensures refused { IfErr result (λ fault. IsCause fault
        (delete_refusal (own_basis replica.old) list.now index len)) }
    ensures unchanged { OnErr result (replica.new ≡ replica.old) }
{
    if let Some(fault) = range_fault(replica, list, index, len) {
        return Err(fault);
    }
    let ids = units_between(alloc, replica, list, index, len)?;
    match replica.remove(&ids) {
        Ok(update) => Ok(update),
        Err(fault) => Err(fault),
    }
}
