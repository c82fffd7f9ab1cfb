//! Why an edit at an index is refused before its steps are asked.

ghost use Rattle.std.specs.Prelude.{◌≡◌, ◌+◌, ◌^◌, ◌<◌, IfNone};
ghost use Rattle.yd_editing.specs.Step.{first_or};
ghost use Rattle.yd_editing.specs.TextEdit.{counted_units, list_refusal, end_refusal, index_refusal};
ghost use Rattle.yd_making.specs.Steps.{fault_given};
ghost use Rattle.yd_doc.specs.Editing.{own_basis};
ghost use Rattle.yd_doc.specs.Kept.{own_document};

use crate::placing::parts_pair;
use yd_doc::{EditFault, Replica};
use yd_ops::{List, Parent};

/// The list's parent, where it is no root and no type item that is held, and something is made.
pub(crate) fn list_fault(replica: &Replica, list: &List, makes: bool) -> Option<EditFault>
    ensures { result ≡ fault_given (list_refusal (own_basis replica.now) list.now makes) }
{
    if !makes {
        return None;
    }
    match &list.parent {
        Parent::Root(_) => None,
        Parent::Item(id) => {
            if replica.has_type(*id) {
                return None;
            }
            Some(EditFault::NoPlace(*id))
        }
    }
}

/// The length, where the index is past it, and else the index, where it parts a pair.
pub(crate) fn place_fault(replica: &Replica, list: &List, index: u64) -> Option<EditFault>
    ensures { result ≡ fault_given (first_or
        (end_refusal (counted_units (own_document replica.now) list.now) index)
        (index_refusal (counted_units (own_document replica.now) list.now) index)) }
{
    let length = replica.length(list);
    if length < index {
        return Some(EditFault::PastEnd(length));
    }
    index_fault(replica, list, index)
}

/// The length, where the end of the range is past it, and else the first end that parts a pair.
pub(crate) fn range_fault(replica: &Replica, list: &List, index: u64, len: u64) -> Option<EditFault>
    ensures fault { result ≡ fault_given (first_or
        (end_refusal (counted_units (own_document replica.now) list.now) (index + len))
        (first_or (index_refusal (counted_units (own_document replica.now) list.now) index)
        (index_refusal (counted_units (own_document replica.now) list.now) (index + len)))) }
    ensures in_range { IfNone result (index + len < 2 ^ 64) }
{
    let length = replica.length(list);
    if length < index {
        return Some(EditFault::PastEnd(length));
    }
    if length - index < len {
        return Some(EditFault::PastEnd(length));
    }
    if let Some(fault) = index_fault(replica, list, index) {
        return Some(fault);
    }
    index_fault(replica, list, index + len)
}

/// The index, where it parts a pair.
fn index_fault(replica: &Replica, list: &List, index: u64) -> Option<EditFault>
    ensures { result ≡ fault_given
        (index_refusal (counted_units (own_document replica.now) list.now) index) }
{
    if parts_pair(replica, list, index) {
        return Some(EditFault::InsidePair(index));
    }
    None
}
