//! JSON values, and the lists and objects that hold them.

ghost use Rattle.std.specs.Prelude.{◌≡◌, IsTrue, IfOk, OnOk, OnErr};
ghost use Rattle.yd_any.specs.Tree.{no_trees, no_fields, with_last, with_last_field, last_key};
ghost use Rattle.yd_any.specs.Valid.{is_above, is_valid_json};
ghost use Rattle.yd_any.specs.JsonView.{json_tree, json_trees, json_fields};
ghost use Rattle.yd_any.specs.JsonView.{items_trees, entries_fields};

use crate::fault::NoMemory;
use crate::text::Text;
use std::alloc::Global;

/// A JSON value with whole numbers alone.
#[cycle(json)]
#[derive(Drop)]
pub enum Json {
    /// `null`.
    Null,
    /// `true` or `false`.
    Flag(bool),
    /// A whole number, of magnitude at most 2^31-1 where the value is valid.
    Whole(i32),
    /// A string.
    Str(Text),
    /// An array.
    List(JsonList),
    /// An object.
    Fields(JsonFields),
}

/// JSON values in order.
#[cycle(json)]
#[derive(Drop)]
pub struct JsonList {
    pub(crate) items: Vec<Json>,
}

/// Distinct keys with JSON values, in the order of the keys' bytes.
#[cycle(json)]
#[derive(Drop)]
pub struct JsonFields {
    pub(crate) items: Vec<(Text, Json)>,
}

impl JsonList {
    /// The empty list.
    pub fn new(alloc: Global) -> JsonList
        ensures { json_trees result ≡ no_trees }
    {
        JsonList {
            items: Vec::new(alloc),
        }
    }

    /// Appends a value. One that finds no memory is dropped.
    pub fn push(&mut self, item: Json) -> Result<(), NoMemory>
        requires { IsTrue (is_valid_json (json_tree item)) }
        ensures appended { OnOk result (json_trees self.new
            ≡ with_last (json_trees self.old) (json_tree item)) }
        ensures unchanged { OnErr result (json_trees self.new ≡ json_trees self.old) }
    {
        push_item(&mut self.items, item)
    }

    /// The values as they are lent.
    pub fn as_slice(&self) -> &[Json]
        ensures { items_trees result.now ≡ json_trees self.now }
    {
        self.items.as_slice()
    }
}

impl JsonFields {
    /// The empty object.
    pub fn new(alloc: Global) -> JsonFields
        ensures { json_fields result ≡ no_fields }
    {
        JsonFields {
            items: Vec::new(alloc),
        }
    }

    /// Appends a key, which is above the last one, with its value. What finds no memory is dropped.
    pub fn push(&mut self, item: (Text, Json)) -> Result<(), NoMemory>
        requires above { IsTrue (is_above (last_key (json_fields self.old)) item.0) }
        requires valid { IsTrue (is_valid_json (json_tree item.1)) }
        ensures appended { OnOk result (json_fields self.new
            ≡ with_last_field (json_fields self.old) item.0 (json_tree item.1)) }
        ensures unchanged { OnErr result (json_fields self.new ≡ json_fields self.old) }
    {
        push_entry(&mut self.items, item)
    }

    /// The keys and values as they are lent.
    pub fn as_slice(&self) -> &[(Text, Json)]
        ensures { entries_fields result.now ≡ json_fields self.now }
    {
        self.items.as_slice()
    }
}

#[tactic(auto, using(crate::proofs::JsonLists::items_trees_last))]
fn push_item(items: &mut Vec<Json>, item: Json) -> Result<(), NoMemory>
    ensures appended { OnOk result (items_trees items.new.items
        ≡ with_last (items_trees items.old.items) (json_tree item)) }
    ensures unchanged { OnErr result (items_trees items.new.items ≡ items_trees items.old.items) }
{
    items.push(item)?;
    Ok(())
}

#[tactic(auto, using(crate::proofs::JsonLists::entries_fields_last))]
fn push_entry(items: &mut Vec<(Text, Json)>, item: (Text, Json)) -> Result<(), NoMemory>
    ensures appended { OnOk result (entries_fields items.new.items
        ≡ with_last_field (entries_fields items.old.items) item.0 (json_tree item.1)) }
    ensures unchanged { OnErr result (entries_fields items.new.items
        ≡ entries_fields items.old.items) }
{
    items.push(item)?;
    Ok(())
}

impl Json {
    /// The same value once more.
    pub fn copy(&self) -> Result<Json, NoMemory>
        requires { IsTrue (is_valid_json (json_tree self.now)) }
        ensures { IfOk result (λ v. json_tree v ≡ json_tree self.now) }
    {
        copy(self)
    }
}

#[cycle(copy)]
fn copy(value: &Json) -> Result<Json, NoMemory>
    ensures { IfOk result (λ v. json_tree v ≡ json_tree value.now) }
{
    match value {
        Json::Null => Ok(Json::Null),
        Json::Flag(b) => Ok(Json::Flag(*b)),
        Json::Whole(n) => Ok(Json::Whole(*n)),
        Json::Str(text) => Ok(Json::Str(text.copy()?)),
        Json::List(items) => Ok(Json::List(copy_list(items)?)),
        Json::Fields(entries) => Ok(Json::Fields(copy_fields(entries)?)),
    }
}

#[cycle(copy)]
fn copy_list(items: &JsonList) -> Result<JsonList, NoMemory>
    ensures { IfOk result (λ v. json_trees v ≡ json_trees items.now) }
{
    let mut copies = Vec::new(*items.items.allocator());
    for item in &items.items {
        copies.push(copy(item)?)?;
    }
    Ok(JsonList { items: copies })
}

#[cycle(copy)]
fn copy_fields(entries: &JsonFields) -> Result<JsonFields, NoMemory>
    ensures { IfOk result (λ v. json_fields v ≡ json_fields entries.now) }
{
    let mut copies = Vec::new(*entries.items.allocator());
    for entry in &entries.items {
        copies.push((entry.0.copy()?, copy(&entry.1)?))?;
    }
    Ok(JsonFields { items: copies })
}
