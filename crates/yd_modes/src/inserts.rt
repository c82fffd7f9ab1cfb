//! What pieces make, which is a delta, and how a map grows by a key.

ghost use Rattle.std.specs.Prelude.{◌≡◌, IfOk, OnOk, map, option_map};
ghost use Rattle.yd_any.specs.Tree.{AnyFields, list};
ghost use Rattle.yd_shown.specs.Shown.{field_before};
ghost use Rattle.yd_value.specs.View.{shown_fields, shown_tree};
ghost use Rattle.yd_modes.specs.Gathering.{made, told_insert, told_inserts};
ghost use Rattle.yd_modes.specs.Roles.{joined_fields};

use crate::fault::NoMemory;
use crate::objects::{marked_insert, plain_insert};
use crate::piece::Piece;
use std::alloc::Global;
use yd_any::Text;
use yd_value::{Shown, ShownFields, ShownList};

/// The delta of pieces: an object for each, with its attributes where it has any.
pub fn delta_of(alloc: Global, pieces: Vec<Piece>) -> Result<Shown, NoMemory>
    ensures { IfOk result (λ shown. shown_tree shown
        ≡ list (told_inserts (map made pieces.items))) }
{
    // As many pieces come as there are.
    let _count = pieces.as_slice().len();
    let mut inserts = ShownList::new(alloc);
    for piece in pieces {
        let insert = insert_of(alloc, piece)?;
        inserts.push(insert)?;
    }
    Ok(Shown::List(inserts))
}

/// A piece as an object.
fn insert_of(alloc: Global, piece: Piece) -> Result<Shown, NoMemory>
    ensures { IfOk result (λ shown. shown_tree shown ≡ told_insert (made piece)) }
{
    if piece.attributes.as_slice().is_empty() {
        return plain_insert(alloc, piece.insert);
    }
    marked_insert(alloc, piece.attributes, piece.insert)
}

/// Appends a key with its value, where there is one.
pub fn push_value(fields: &mut ShownFields, key: Text, value: Option<Shown>) -> Result<(), NoMemory>
    ensures { OnOk result ((rest : AnyFields) → joined_fields (shown_fields fields.new) rest
        ≡ joined_fields (shown_fields fields.old)
        (field_before key (option_map shown_tree value) rest)) }
{
    match value {
        None => Ok(()),
        Some(value) => {
            fields.push((key, value))?;
            Ok(())
        }
    }
}
