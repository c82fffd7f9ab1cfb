//! Where the target of a line leads.

ghost use Rattle.std.specs.Prelude.{◌≡◌, IfOk, IfSome};
ghost use Rattle.yd_ids.specs.Id.{IsId};
ghost use Rattle.yd_ops.specs.Valid.{IsParent};
ghost use Rattle.yd_script.specs.Line.{target_of};
ghost use Rattle.yd_doc.specs.Editing.{own_basis};
ghost use Rattle.yd_doc.specs.Kept.{own_document};
ghost use Rattle.yd_playing.specs.Led.{led, parent_behind, unit_named as unit_of_step};

use yd_doc::Replica;
use yd_ids::Id;
use yd_ops::{List, Parent};
use yd_script::{Target, TargetStep};
use yd_text::value_in;

/// The parent to which a target leads, or the number of the first of its steps, from 1, that leads to
/// no live type. It takes no memory, and for each step the time of reading a list up to an index or of
/// finding what stands under a key.
pub(crate) fn lead(replica: &Replica, target: Target) -> Result<Parent, u64>
    ensures leads { result ≡ led (own_basis replica.now) (target_of target) }
    ensures in_range { IfOk result IsParent }
{
    let Target { root, steps } = target;
    // How many steps there are is in range, and so is each number.
    let _count = steps.len();
    let mut parent = Parent::Root(root);
    let mut number = 0;
    for step in steps {
        number += 1;
        match next_parent(replica, parent, step) {
            Some(next) => parent = next,
            None => return Err(number),
        }
    }
    Ok(parent)
}

/// The type to which a step leads.
fn next_parent(replica: &Replica, parent: Parent, step: TargetStep) -> Option<Parent>
    ensures parent { result ≡ parent_behind (own_basis replica.now) parent step }
    ensures in_range { IfSome result IsParent }
{
    match unit_named(replica, parent, step) {
        Some(id) if replica.has_type(id) => Some(Parent::Item(id)),
        _ => None,
    }
}

/// The unit that a step names.
fn unit_named(replica: &Replica, parent: Parent, step: TargetStep) -> Option<Id>
    ensures unit { result ≡ unit_of_step (own_document replica.now) parent step }
    ensures in_range { IfSome result IsId }
{
    match step {
        TargetStep::Index(index) => {
            let list = List { parent, key: None };
            replica.unit_at(&list, index)
        }
        TargetStep::Key(key) => {
            let list = List {
                parent,
                key: Some(key),
            };
            value_in(replica, &list)
        }
    }
}
