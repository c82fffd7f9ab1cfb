//! Shown values, and the lists and fields that hold them.

ghost use Rattle.std.specs.Prelude.{◌≡◌, OnOk, OnErr};
ghost use Rattle.yd_any.specs.Tree.{no_trees, no_fields, with_last, with_last_field};
ghost use Rattle.yd_value.specs.View.{shown_tree, shown_trees, shown_fields};
ghost use Rattle.yd_value.specs.View.{items_trees, entries_fields};

use crate::fault::NoMemory;
use std::alloc::Global;
use yd_any::{Blob, Text};

/// A value as a reader of a document sees it. What JSON does not have is kept as it is, and is printed
/// as an object with one key.
#[cycle(shown)]
#[derive(Drop)]
pub enum Shown {
    /// JavaScript's `undefined`.
    Undefined,
    /// `null`.
    Null,
    /// `true` or `false`.
    Flag(bool),
    /// A whole number.
    Whole(i64),
    /// The four bytes of a float, as they are.
    Raw4([u8; 4]),
    /// The eight bytes of a float, as they are.
    Raw8([u8; 8]),
    /// A `BigInt` of 64 bits.
    Big(i64),
    /// A text.
    Str(Text),
    /// Values in order.
    List(ShownList),
    /// Keys with values, in order.
    Fields(ShownFields),
    /// An element, which stands for three keys.
    Element(Box<ShownElement>),
    /// A byte string.
    Blob(Blob),
}

/// An element of a tree. It is shown as an object with the keys `attributes`, `children` and `name`.
#[cycle(shown)]
#[derive(Drop)]
pub struct ShownElement {
    /// Its attributes.
    pub attributes: ShownFields,
    /// Its children, as a list.
    pub children: Shown,
    /// Its name.
    pub name: Text,
}

/// Shown values in order.
#[cycle(shown)]
#[derive(Drop)]
pub struct ShownList {
    pub(crate) items: Vec<Shown>,
}

/// Keys with shown values, in the order in which they are shown.
#[cycle(shown)]
#[derive(Drop)]
pub struct ShownFields {
    pub(crate) items: Vec<(Text, Shown)>,
}

impl ShownList {
    /// The empty list.
    pub fn new(alloc: Global) -> ShownList
        ensures { shown_trees result ≡ no_trees }
    {
        ShownList {
            items: Vec::new(alloc),
        }
    }

    /// Appends a value. One that finds no memory is dropped.
    pub fn push(&mut self, item: Shown) -> Result<(), NoMemory>
        ensures appended { OnOk result (shown_trees self.new
            ≡ with_last (shown_trees self.old) (shown_tree item)) }
        ensures unchanged { OnErr result (shown_trees self.new ≡ shown_trees self.old) }
    {
        push_item(&mut self.items, item)
    }

    /// The values as they are lent.
    pub fn as_slice(&self) -> &[Shown]
        ensures { items_trees result.now ≡ shown_trees self.now }
    {
        self.items.as_slice()
    }
}

impl ShownFields {
    /// No field.
    pub fn new(alloc: Global) -> ShownFields
        ensures { shown_fields result ≡ no_fields }
    {
        ShownFields {
            items: Vec::new(alloc),
        }
    }

    /// Appends a key with its value. What finds no memory is dropped.
    pub fn push(&mut self, item: (Text, Shown)) -> Result<(), NoMemory>
        ensures appended { OnOk result (shown_fields self.new
            ≡ with_last_field (shown_fields self.old) item.0 (shown_tree item.1)) }
        ensures unchanged { OnErr result (shown_fields self.new ≡ shown_fields self.old) }
    {
        push_entry(&mut self.items, item)
    }

    /// The keys and values as they are lent.
    pub fn as_slice(&self) -> &[(Text, Shown)]
        ensures { entries_fields result.now ≡ shown_fields self.now }
    {
        self.items.as_slice()
    }
}

#[tactic(auto, using(crate::proofs::ShownLists::items_trees_last))]
fn push_item(items: &mut Vec<Shown>, item: Shown) -> Result<(), NoMemory>
    ensures appended { OnOk result (items_trees items.new.items
        ≡ with_last (items_trees items.old.items) (shown_tree item)) }
    ensures unchanged { OnErr result (items_trees items.new.items ≡ items_trees items.old.items) }
{
    items.push(item)?;
    Ok(())
}

#[tactic(auto, using(crate::proofs::ShownLists::entries_fields_last))]
fn push_entry(items: &mut Vec<(Text, Shown)>, item: (Text, Shown)) -> Result<(), NoMemory>
    ensures appended { OnOk result (entries_fields items.new.items
        ≡ with_last_field (entries_fields items.old.items) item.0 (shown_tree item.1)) }
    ensures unchanged { OnErr result (entries_fields items.new.items
        ≡ entries_fields items.old.items) }
{
    items.push(item)?;
    Ok(())
}
