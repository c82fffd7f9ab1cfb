//! One edit of a replica, by draws.

ghost use Rattle.std.specs.Prelude.{◌≡◌, ◌+◌, ◌<◌, ◌%◌, ◌^◌, true, false, length, IfOk, IfErr, OnOk};
ghost use Rattle.yd_ids.specs.Id.{IsClient};
ghost use Rattle.yd_ops.specs.View.{content_value};
ghost use Rattle.yd_meaning.specs.Held.{held_clock, held_set};
ghost use Rattle.yd_editing.specs.TextEdit.{counted_units, insert_steps, insert_refusal, delete_steps, delete_refusal};
ghost use Rattle.yd_generator.specs.Generated.{edited, inserts, letter, steps_drawn, text_list};
ghost use Rattle.yd_generator.specs.Law.{IsAccepted};
ghost use Rattle.yd_generator.specs.Plain.{IsPlain};
ghost use Rattle.yd_making.specs.Steps.{IsCause};
ghost use Rattle.yd_making.specs.declared.fault.EditFault.TheVariants.{NoMemory as NoRoom};
ghost use Rattle.yd_doc.specs.Editing.{own_basis};
ghost use Rattle.yd_doc.specs.Kept.{own_document, received_of};
ghost use Rattle.yd_generating.specs.Stopped.{drawn_refusal, HasEdited, IsFull};

use crate::fault::{GenerateFault, stopped};
use std::alloc::Global;
use yd_doc::law::own_document_is_replicas;
use yd_doc::{EditFault, Replica};
use yd_generator::Draws;
use yd_ops::{Content, List};
use yd_text::{delete, insert_content};
use yd_units::Units;

/// The unit of the first letter, and how many letters there are.
const FIRST_LETTER: u16 = 0x61;

const LETTERS: u64 = 26;

/// The replica edits the text: it inserts a letter, or deletes a unit. It is refused only where its
/// client has no clock left.
pub(crate) fn edit(
    alloc: Global,
    replica: &mut Replica,
    list: &List,
    draws: Draws,
) -> Result<(), GenerateFault>
    requires list { list.now ≡ text_list }
    requires client { IsClient replica.old.client }
    requires plain { IsPlain (received_of replica.old) }
    requires small { draws.y < 2 ^ 15 }
    ensures edited { OnOk result (received_of replica.new
        ≡ edited replica.old.client draws (received_of replica.old)) }
    ensures accepted { OnOk result
        (IsAccepted replica.old.client draws (received_of replica.old)) }
    ensures full { IfErr result (IsFull
        (held_clock (held_set (received_of replica.old).operations) replica.old.client.0)) }
    ensures client { replica.new.client ≡ replica.old.client }
{
    own_document_is_replicas(replica);
    match edit_drawn(alloc, replica, list, draws) {
        Ok(_) => Ok(()),
        Err(fault) => Err(stopped(fault)),
    }
}

/// The edit, over the replica's own document.
fn edit_drawn(
    alloc: Global,
    replica: &mut Replica,
    list: &List,
    draws: Draws,
) -> Result<(), EditFault>
    requires list { list.now ≡ text_list }
    requires small { draws.y < 2 ^ 15 }
    ensures done { OnOk result (HasEdited replica.old replica.new
        (steps_drawn draws (own_document replica.old))) }
    ensures refused { IfErr result (λ fault.
        IsCause fault (drawn_refusal draws (own_basis replica.old))) }
    ensures client { replica.new.client ≡ replica.old.client }
{
    let length = replica.length(list);
    if inserts(length, draws.x) {
        insert_drawn(alloc, replica, list, draws, length)?;
        return Ok(());
    }
    remove_drawn(alloc, replica, list, draws, length)?;
    Ok(())
}

/// The edit by draws, where it inserts.
fn insert_drawn(
    alloc: Global,
    replica: &mut Replica,
    list: &List,
    draws: Draws,
    len: u64,
) -> Result<(), EditFault>
    requires list { list.now ≡ text_list }
    requires small { draws.y < 2 ^ 15 }
    requires len { len ≡ length (counted_units (own_document replica.old) list.now) }
    requires test { inserts len draws.x ≡ true }
    ensures done { OnOk result (HasEdited replica.old replica.new
        (steps_drawn draws (own_document replica.old))) }
    ensures refused { IfErr result (λ fault.
        IsCause fault (drawn_refusal draws (own_basis replica.old))) }
    ensures client { replica.new.client ≡ replica.old.client }
{
    let index = place(draws.y, len);
    match insert_letter(alloc, replica, list, index, draws.z) {
        Ok(_) => Ok(()),
        Err(fault) => Err(fault),
    }
}

/// The edit by draws, where it deletes.
fn remove_drawn(
    alloc: Global,
    replica: &mut Replica,
    list: &List,
    draws: Draws,
    len: u64,
) -> Result<(), EditFault>
    requires list { list.now ≡ text_list }
    requires len { len ≡ length (counted_units (own_document replica.old) list.now) }
    requires some { 0 < len }
    requires test { inserts len draws.x ≡ false }
    ensures done { OnOk result (HasEdited replica.old replica.new
        (steps_drawn draws (own_document replica.old))) }
    ensures refused { IfErr result (λ fault.
        IsCause fault (drawn_refusal draws (own_basis replica.old))) }
    ensures client { replica.new.client ≡ replica.old.client }
{
    let index = draws.y % len;
    match remove_unit(alloc, replica, list, index) {
        Ok(_) => Ok(()),
        Err(fault) => Err(fault),
    }
}

/// Whether an edit of so many units inserts: there is nothing to delete, or the draw says so.
fn inserts(length: u64, x: u64) -> bool
    ensures test { result ≡ inserts length x }
    ensures some { result ≡ false → 0 < length }
{
    length == 0 || x % 4 != 3
}

/// The index of an insertion: the draw, and its rest by the number of places where there are fewer.
fn place(y: u64, length: u64) -> u64
    requires { y < 2 ^ 15 }
    ensures { result ≡ y % (length + 1) }
{
    if y <= length {
        return y;
    }
    y % (length + 1)
}

/// Inserts the letter with a number.
fn insert_letter(
    alloc: Global,
    replica: &mut Replica,
    list: &List,
    index: u64,
    z: u64,
) -> Result<(), EditFault>
    requires { list.now ≡ text_list }
    ensures done { OnOk result (HasEdited replica.old replica.new
        (insert_steps (own_document replica.old) text_list index (letter z))) }
    ensures refused { IfErr result (λ fault. IsCause fault
        (insert_refusal (own_basis replica.old) text_list index (letter z))) }
    ensures client { replica.new.client ≡ replica.old.client }
{
    let content = content_of_letter(alloc, z)?;
    match insert_content(alloc, replica, list, index, content) {
        Ok(_update) => Ok(()),
        Err(fault) => Err(fault),
    }
}

/// Deletes the unit at an index.
fn remove_unit(
    alloc: Global,
    replica: &mut Replica,
    list: &List,
    index: u64,
) -> Result<(), EditFault>
    requires { list.now ≡ text_list }
    ensures done { OnOk result (HasEdited replica.old replica.new
        (delete_steps (own_document replica.old) text_list index 1)) }
    ensures refused { IfErr result (λ fault. IsCause fault
        (delete_refusal (own_basis replica.old) text_list index 1)) }
    ensures client { replica.new.client ≡ replica.old.client }
{
    match delete(alloc, replica, list, index, 1) {
        Ok(_update) => Ok(()),
        Err(fault) => Err(fault),
    }
}

/// The letter with a number, as the one unit of a content.
fn content_of_letter(alloc: Global, z: u64) -> Result<Content, EditFault>
    ensures content { IfOk result (λ content. content_value content ≡ letter z) }
    ensures memory { IfErr result (λ fault. fault ≡ NoRoom) }
{
    let unit = FIRST_LETTER + (z % LETTERS) as u16;
    let mut units = Vec::new(alloc);
    match units.push(unit) {
        Ok(_) => Ok(Content::Str(Units::of_units(units))),
        Err(_) => Err(EditFault::NoMemory),
    }
}
