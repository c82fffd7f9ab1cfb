//! Any-values, and the lists and pairs that hold them.

ghost use Rattle.std.specs.Prelude.{◌≡◌, IsTrue, IfOk, OnOk, OnErr};
ghost use Rattle.yd_any.specs.Tree.{no_trees, no_fields, with_last, with_last_field};
ghost use Rattle.yd_any.specs.AnyView.{any_tree, any_trees, any_fields};
ghost use Rattle.yd_any.specs.AnyView.{items_trees, entries_fields};
ghost use Rattle.yd_any.specs.Valid.{is_valid_any, are_valid_any};

use crate::blob::Blob;
use crate::fault::NoMemory;
use crate::text::Text;
use std::alloc::Global;

/// A value of lib0's `any`.
#[cycle(any)]
#[derive(Drop)]
pub enum Any {
    /// JavaScript's `undefined`.
    Undefined,
    /// JavaScript's `null`.
    Null,
    /// A boolean.
    Flag(bool),
    /// A whole number, of magnitude at most 2^53-1 where the value is valid.
    Whole(i64),
    /// The four bytes of a float, as they are.
    Raw4([u8; 4]),
    /// The eight bytes of a float, as they are.
    Raw8([u8; 8]),
    /// A `BigInt` of 64 bits.
    Big(i64),
    /// A text.
    Str(Text),
    /// Values in order.
    List(AnyList),
    /// Keys with values, in written order.
    Pairs(AnyPairs),
    /// A byte string.
    Blob(Blob),
}

/// Any-values in order.
#[cycle(any)]
#[derive(Drop)]
pub struct AnyList {
    pub(crate) items: Vec<Any>,
}

/// Keys with any-values, in written order; a key may come again.
#[cycle(any)]
#[derive(Drop)]
pub struct AnyPairs {
    pub(crate) items: Vec<(Text, Any)>,
}

impl AnyList {
    /// The empty list.
    pub fn new(alloc: Global) -> AnyList
        ensures { any_trees result ≡ no_trees }
    {
        AnyList {
            items: Vec::new(alloc),
        }
    }

    /// Appends a value. One that finds no memory is dropped.
    pub fn push(&mut self, item: Any) -> Result<(), NoMemory>
        requires { IsTrue (is_valid_any (any_tree item)) }
        ensures appended { OnOk result (any_trees self.new
            ≡ with_last (any_trees self.old) (any_tree item)) }
        ensures unchanged { OnErr result (any_trees self.new ≡ any_trees self.old) }
    {
        push_item(&mut self.items, item)
    }

    /// The values as they are lent.
    pub fn as_slice(&self) -> &[Any]
        ensures { items_trees result.now ≡ any_trees self.now }
    {
        self.items.as_slice()
    }

    /// The same values once more.
    pub fn copy(&self) -> Result<AnyList, NoMemory>
        requires { IsTrue (are_valid_any (any_trees self.now)) }
        ensures { IfOk result (λ copy. any_trees copy ≡ any_trees self.now) }
    {
        copy_list(self)
    }
}

impl AnyPairs {
    /// No pair.
    pub fn new(alloc: Global) -> AnyPairs
        ensures { any_fields result ≡ no_fields }
    {
        AnyPairs {
            items: Vec::new(alloc),
        }
    }

    /// Appends a key with its value. What finds no memory is dropped.
    pub fn push(&mut self, item: (Text, Any)) -> Result<(), NoMemory>
        requires { IsTrue (is_valid_any (any_tree item.1)) }
        ensures appended { OnOk result (any_fields self.new
            ≡ with_last_field (any_fields self.old) item.0 (any_tree item.1)) }
        ensures unchanged { OnErr result (any_fields self.new ≡ any_fields self.old) }
    {
        push_entry(&mut self.items, item)
    }

    /// The keys and values as they are lent.
    pub fn as_slice(&self) -> &[(Text, Any)]
        ensures { entries_fields result.now ≡ any_fields self.now }
    {
        self.items.as_slice()
    }
}

#[tactic(auto, using(crate::proofs::AnyLists::items_trees_last))]
fn push_item(items: &mut Vec<Any>, item: Any) -> Result<(), NoMemory>
    ensures appended { OnOk result (items_trees items.new.items
        ≡ with_last (items_trees items.old.items) (any_tree item)) }
    ensures unchanged { OnErr result (items_trees items.new.items ≡ items_trees items.old.items) }
{
    items.push(item)?;
    Ok(())
}

#[tactic(auto, using(crate::proofs::AnyLists::entries_fields_last))]
fn push_entry(items: &mut Vec<(Text, Any)>, item: (Text, Any)) -> Result<(), NoMemory>
    ensures appended { OnOk result (entries_fields items.new.items
        ≡ with_last_field (entries_fields items.old.items) item.0 (any_tree item.1)) }
    ensures unchanged { OnErr result (entries_fields items.new.items
        ≡ entries_fields items.old.items) }
{
    items.push(item)?;
    Ok(())
}

impl Any {
    /// The same value once more.
    pub fn copy(&self) -> Result<Any, NoMemory>
        requires { IsTrue (is_valid_any (any_tree self.now)) }
        ensures { IfOk result (λ v. any_tree v ≡ any_tree self.now) }
    {
        copy(self)
    }
}

#[cycle(copy)]
fn copy(value: &Any) -> Result<Any, NoMemory>
    ensures { IfOk result (λ v. any_tree v ≡ any_tree value.now) }
{
    match value {
        Any::Undefined => Ok(Any::Undefined),
        Any::Null => Ok(Any::Null),
        Any::Flag(b) => Ok(Any::Flag(*b)),
        Any::Whole(n) => Ok(Any::Whole(*n)),
        Any::Raw4(bytes) => Ok(Any::Raw4(*bytes)),
        Any::Raw8(bytes) => Ok(Any::Raw8(*bytes)),
        Any::Big(n) => Ok(Any::Big(*n)),
        Any::Str(text) => Ok(Any::Str(text.copy()?)),
        Any::List(items) => Ok(Any::List(copy_list(items)?)),
        Any::Pairs(entries) => Ok(Any::Pairs(copy_pairs(entries)?)),
        Any::Blob(bytes) => Ok(Any::Blob(bytes.copy()?)),
    }
}

#[cycle(copy)]
fn copy_list(items: &AnyList) -> Result<AnyList, NoMemory>
    ensures { IfOk result (λ v. any_trees v ≡ any_trees items.now) }
{
    let mut copies = Vec::new(*items.items.allocator());
    for item in &items.items {
        copies.push(copy(item)?)?;
    }
    Ok(AnyList { items: copies })
}

#[cycle(copy)]
fn copy_pairs(entries: &AnyPairs) -> Result<AnyPairs, NoMemory>
    ensures { IfOk result (λ v. any_fields v ≡ any_fields entries.now) }
{
    let mut copies = Vec::new(*entries.items.allocator());
    for entry in &entries.items {
        copies.push((entry.0.copy()?, copy(&entry.1)?))?;
    }
    Ok(AnyPairs { items: copies })
}
