//! Insertions and embeds.

ghost use Rattle.std.specs.Prelude.{◌≡◌, None, IfOk, IfErr, OnOk, OnErr, IsTrue};
ghost use Rattle.yd_units.specs.Text.{units_of};
ghost use Rattle.yd_any.specs.JsonView.{json_tree};
ghost use Rattle.yd_any.specs.Valid.{is_valid_json};
ghost use Rattle.yd_ops.specs.Valid.{IsValidContent, IsParent};
ghost use Rattle.yd_ops.specs.Value.{string, embed as embed_value};
ghost use Rattle.yd_ops.specs.View.{content_value, update_value};
ghost use Rattle.yd_editing.specs.Law.{IsMakeable};
ghost use Rattle.yd_editing.specs.Refused.{refusal_of};
ghost use Rattle.yd_editing.specs.TextEdit.{insert_steps, insert_refusal};
ghost use Rattle.yd_making.specs.Steps.{IsCause};
ghost use Rattle.yd_doc.specs.Editing.{own_basis, IsEdit};
ghost use Rattle.yd_doc.specs.Kept.{own_document};

use crate::placing::place_at;
use crate::refusing::{list_fault, place_fault};
use std::alloc::Global;
use yd_any::Json;
use yd_doc::{EditFault, Replica, StepList};
use yd_ops::{Content, List, Update};
use yd_units::Units;

/// Inserts a text directly behind the unit before the index, in UTF-16 units, or at the front. An
/// empty text makes nothing, and its index is judged all the same. `NoPlace`, where the list's
/// parent is no type item that is held and the text is not empty; `PastEnd` with the length, where
/// the index is past it; `InsidePair` with the index, where it parts a pair; and else what
/// `Replica::edit` refuses. After a refusal the replica is as before (Yjs 13, insert of a text;
/// which of the places with the same shown text it takes is own).
pub fn insert(
    alloc: Global,
    replica: &mut Replica,
    list: &List,
    index: u64,
    text: &str,
) -> Result<Update, EditFault>
    requires { IsParent list.now.parent }
    ensures done { IfOk result (λ update. IsEdit replica.old replica.new
        (insert_steps (own_document replica.old) list.now index (string (units_of text.now)))
        (update_value update)) }
    ensures accepted { OnOk result (insert_refusal (own_basis replica.old) list.now index
        (string (units_of text.now)) ≡ None) }
    ensures refused { IfErr result (λ fault. IsCause fault
        (insert_refusal (own_basis replica.old) list.now index (string (units_of text.now)))) }
    ensures unchanged { OnErr result (replica.new ≡ replica.old) }
{
    match Units::from_text(alloc, text) {
        Err(_) => Err(EditFault::NoMemory),
        Ok(units) => insert_content(alloc, replica, list, index, Content::Str(units)),
    }
}

/// Inserts one embed, as `insert` does a text.
pub fn embed(
    alloc: Global,
    replica: &mut Replica,
    list: &List,
    index: u64,
    value: Json,
) -> Result<Update, EditFault>
    requires parent { IsParent list.now.parent }
    requires valid { IsTrue (is_valid_json (json_tree value)) }
    ensures done { IfOk result (λ update. IsEdit replica.old replica.new
        (insert_steps (own_document replica.old) list.now index (embed_value (json_tree value)))
        (update_value update)) }
    ensures accepted { OnOk result (insert_refusal (own_basis replica.old) list.now index
        (embed_value (json_tree value)) ≡ None) }
    ensures refused { IfErr result (λ fault. IsCause fault
        (insert_refusal (own_basis replica.old) list.now index (embed_value (json_tree value)))) }
    ensures unchanged { OnErr result (replica.new ≡ replica.old) }
{
    let update = insert_content(alloc, replica, list, index, Content::Embed(value))?;
    Ok(update)
}

/// Inserts a content of any kind, as `insert` does a text. No deleted units are inserted.
pub fn insert_content(
    alloc: Global,
    replica: &mut Replica,
    list: &List,
    index: u64,
    content: Content,
) -> Result<Update, EditFault>
    requires parent { IsParent list.now.parent }
    requires valid { IsValidContent (content_value content) }
    requires makeable { IsMakeable (content_value content) }
    ensures done { IfOk result (λ update. IsEdit replica.old replica.new
        (insert_steps (own_document replica.old) list.now index (content_value content))
        (update_value update)) }
    ensures accepted { OnOk result (insert_refusal (own_basis replica.old) list.now index
        (content_value content) ≡ None) }
    ensures refused { IfErr result (λ fault. IsCause fault
        (insert_refusal (own_basis replica.old) list.now index (content_value content))) }
    ensures unchanged { OnErr result (replica.new ≡ replica.old) }
{
    if let Some(fault) = list_fault(replica, list, content.len() > 0) {
        return Err(fault);
    }
    if let Some(fault) = place_fault(replica, list, index) {
        return Err(fault);
    }
    match put_at(alloc, replica, list, index, content) {
        Ok(update) => Ok(update),
        Err(fault) => Err(fault),
    }
}

/// Makes a content behind the unit before the index, or at the front; one without units is an edit
/// of no steps.
fn put_at(
    alloc: Global,
    replica: &mut Replica,
    list: &List,
    index: u64,
    content: Content,
) -> Result<Update, EditFault>
    requires parent { IsParent list.now.parent }
    requires valid { IsValidContent (content_value content) }
    requires makeable { IsMakeable (content_value content) }
    ensures done { IfOk result (λ update. IsEdit replica.old replica.new
        (insert_steps (own_document replica.old) list.now index (content_value content))
        (update_value update)) }
    ensures refused { IfErr result (λ fault. IsCause fault (refusal_of (own_basis replica.old)
        (insert_steps (own_document replica.old) list.now index (content_value content)))) }
    ensures unchanged { OnErr result (replica.new ≡ replica.old) }
{
    if content.len() == 0 {
        return match replica.edit(StepList::new(alloc)) {
            Ok(update) => Ok(update),
            Err(fault) => Err(fault),
        };
    }
    let after = place_at(replica, list, index);
    match replica.make(list, after, content) {
        Ok(update) => Ok(update),
        Err(fault) => Err(fault),
    }
}
