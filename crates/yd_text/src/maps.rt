//! What stands under a key of a map.

ghost use Rattle.std.specs.Prelude.{◌≡◌, None, Some, IfOk, IfErr, IfSome, OnErr, OnOk};
ghost use Rattle.yd_ids.specs.Id.{IsId};
ghost use Rattle.yd_ops.specs.Valid.{IsValidContent, IsParent};
ghost use Rattle.yd_ops.specs.Value.{len_of};
ghost use Rattle.yd_ops.specs.View.{content_value, update_value};
ghost use Rattle.yd_shown.specs.Shown.{if_shown, key_list as list_of_key, last_unit};
ghost use Rattle.yd_editing.specs.Law.{IsMakeable};
ghost use Rattle.yd_editing.specs.MapEdit.{id_of_unit, set_steps, unset_steps, set_refusal, unset_refusal};
ghost use Rattle.yd_making.specs.Steps.{IsCause};
ghost use Rattle.yd_making.specs.declared.fault.EditFault.TheVariants.{NoMemory as NoRoom};
ghost use Rattle.yd_doc.specs.Editing.{own_basis, IsEdit};
ghost use Rattle.yd_doc.specs.Kept.{own_document};
ghost use Rattle.yd_text.specs.Last.{id_told, live_told, shown_told, IsUnitId};

use crate::last::{LastUnit, last_in, set_of};
use std::alloc::Global;
use yd_any::Text;
use yd_doc::{EditFault, Replica, Step, StepList};
use yd_ids::Id;
use yd_ops::{Content, List, Parent, Update};

/// Sets one any-value or one type under a key. It stands behind the unit that stood last there, which
/// is removed by name where it was live, marks too. `NoPlace`, where the parent is an item that is no
/// held type, and else what `Replica::edit` refuses. After a refusal the map is as before (Yjs 13, set
/// of a map).
pub fn map_set(
    alloc: Global,
    replica: &mut Replica,
    parent: &Parent,
    key: &Text,
    content: Content,
) -> Result<Update, EditFault>
    requires parent { IsParent parent.now }
    requires valid { IsValidContent (content_value content) }
    requires makeable { IsMakeable (content_value content) }
    requires one { len_of (content_value content) ≡ 1 }
    ensures done { IfOk result (λ update. IsEdit replica.old replica.new
        (set_steps (own_document replica.old) parent.now key.now (content_value content))
        (update_value update)) }
    ensures accepted { OnOk result (set_refusal (own_basis replica.old) parent.now key.now
        (content_value content) ≡ None) }
    ensures refused { IfErr result (λ fault. IsCause fault
        (set_refusal (own_basis replica.old) parent.now key.now (content_value content))) }
    ensures unchanged { OnErr result (replica.new ≡ replica.old) }
{
    let list = key_list(parent, key)?;
    let last = last_in(replica, &list);
    let ids = set_of(alloc, live_id(last))?;
    let mut steps = StepList::new(alloc);
    steps.push(Step::Make {
        list,
        after: id_of(last),
        content,
    })?;
    steps.push(Step::Remove(ids))?;
    match replica.edit(steps) {
        Ok(update) => Ok(update),
        Err(fault) => Err(fault),
    }
}

/// Removes the live value of a key by name. `NoKey`, where the unit that stands last there is not live
/// or is no value; and else what `Replica::edit` refuses. After a refusal the map is as before (Yjs 13,
/// delete of a map, which does nothing where the key has no value).
pub fn map_remove(
    alloc: Global,
    replica: &mut Replica,
    parent: &Parent,
    key: &Text,
) -> Result<Update, EditFault>
    ensures done { IfOk result (λ update. IsEdit replica.old replica.new
        (unset_steps (own_document replica.old) parent.now key.now) (update_value update)) }
    ensures accepted { OnOk result
        (unset_refusal (own_basis replica.old) parent.now key.now ≡ None) }
    ensures refused { IfErr result (λ fault. IsCause fault
        (unset_refusal (own_basis replica.old) parent.now key.now)) }
    ensures unchanged { OnErr result (replica.new ≡ replica.old) }
{
    let list = key_list(parent, key)?;
    let value = shown_id(last_in(replica, &list));
    if value.is_none() {
        return Err(EditFault::NoKey);
    }
    let ids = set_of(alloc, value)?;
    match replica.remove(&ids) {
        Ok(update) => Ok(update),
        Err(fault) => Err(fault),
    }
}

/// The id of the value of a key, by the key's list: the unit that stands last there, where it is live
/// and no mark (Yjs 13, get of a map). It takes a look-up of the list, and a few by bisection.
pub fn value_in(replica: &Replica, list: &List) -> Option<Id>
    ensures unit { result ≡ id_of_unit (if_shown (own_document replica.now).deleted
        (last_unit ((own_document replica.now).units list.now))) }
    ensures in_range { IfSome result IsId }
{
    match shown_id(last_in(replica, list)) {
        Some(id) => Some(id),
        None => None,
    }
}

/// The list of a key of a parent.
fn key_list(parent: &Parent, key: &Text) -> Result<List, EditFault>
    ensures list { IfOk result (λ list. list ≡ list_of_key parent.now key.now) }
    ensures memory { IfErr result (λ fault. fault ≡ NoRoom) }
{
    let parent = parent.copy()?;
    let key = match key.copy() {
        Ok(key) => key,
        Err(_) => return Err(EditFault::NoMemory),
    };
    Ok(List {
        parent,
        key: Some(key),
    })
}

/// The id of a unit, if there is one.
fn id_of(last: Option<LastUnit>) -> Option<Id>
    requires { IfSome last (λ unit. IsUnitId unit.id) }
    ensures id { result ≡ id_told last }
    ensures in_range { IfSome result IsId }
{
    match last {
        Some(unit) => Some(unit.id),
        None => None,
    }
}

/// The id of a live unit, if there is one.
fn live_id(last: Option<LastUnit>) -> Option<Id>
    requires { IfSome last (λ unit. IsUnitId unit.id) }
    ensures id { result ≡ live_told last }
    ensures in_range { IfSome result IsUnitId }
{
    match last {
        Some(unit) if unit.live => Some(unit.id),
        _ => None,
    }
}

/// The id of a live value, if there is one.
fn shown_id(last: Option<LastUnit>) -> Option<Id>
    requires { IfSome last (λ unit. IsUnitId unit.id) }
    ensures id { result ≡ shown_told last }
    ensures in_range { IfSome result IsUnitId }
{
    match last {
        Some(unit) if unit.shown => Some(unit.id),
        _ => None,
    }
}
