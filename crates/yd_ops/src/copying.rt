//! Copies: the same plain data in memory of its own.

ghost use Rattle.std.specs.Prelude.{◌≡◌, map, IfOk};
ghost use Rattle.yd_words.specs.Each.{Each};
ghost use Rattle.yd_ops.specs.View.{unit_value, content_value, run_value};
ghost use Rattle.yd_ops.specs.View.{struct_value, block_value, update_value};
ghost use Rattle.yd_ops.specs.Valid.{IsValidUnit, IsValidContent, IsValidUpdate};
ghost use Rattle.yd_ops.specs.Valid.{HasValidContent, HasValidContents};

use crate::contents::{Content, JsonUnit, JsonUnits};
use crate::fault::NoMemory;
use crate::lists::List;
use crate::runs::Run;
use crate::updates::{Block, BlockList, Struct, StructList, Update};
use std::alloc::Global;

impl Update {
    /// The same update once more.
    pub fn copy(&self) -> Result<Update, NoMemory>
        requires { IsValidUpdate (update_value self.now) }
        ensures { IfOk result (λ copy. update_value copy ≡ update_value self.now) }
    {
        let blocks = self.blocks.copy()?;
        let deletes = self.deletes.copy()?;
        Ok(Update { blocks, deletes })
    }
}

impl BlockList {
    /// The same blocks once more.
    pub fn copy(&self) -> Result<BlockList, NoMemory>
        requires { Each HasValidContents (map block_value self.now) }
        ensures { IfOk result (λ copy. map block_value copy ≡ map block_value self.now) }
    {
        let blocks = copy_blocks(*self.blocks.allocator(), &self.blocks)?;
        Ok(BlockList { blocks })
    }
}

impl Block {
    /// The same block once more.
    pub fn copy(&self) -> Result<Block, NoMemory>
        requires { HasValidContents (block_value self.now) }
        ensures { IfOk result (λ copy. block_value copy ≡ block_value self.now) }
    {
        let structs = self.structs.copy()?;
        Ok(Block {
            client: self.client,
            clock: self.clock,
            structs,
        })
    }
}

impl StructList {
    /// The same structs once more.
    pub fn copy(&self) -> Result<StructList, NoMemory>
        requires { Each HasValidContent (map struct_value self.now) }
        ensures { IfOk result (λ copy. map struct_value copy ≡ map struct_value self.now) }
    {
        let structs = copy_structs(*self.structs.allocator(), &self.structs)?;
        Ok(StructList { structs })
    }
}

impl Struct {
    /// The same struct once more.
    pub fn copy(&self) -> Result<Struct, NoMemory>
        requires { HasValidContent (struct_value self.now) }
        ensures { IfOk result (λ copy. struct_value copy ≡ struct_value self.now) }
    {
        match self {
            Struct::Item(run) => Ok(Struct::Item(run.copy()?)),
            Struct::Skip(count) => Ok(Struct::Skip(*count)),
            Struct::Gone(count) => Ok(Struct::Gone(*count)),
        }
    }
}

impl Run {
    /// The same run once more.
    pub fn copy(&self) -> Result<Run, NoMemory>
        requires { IsValidContent (content_value self.now.content) }
        ensures { IfOk result (λ copy. run_value copy ≡ run_value self.now) }
    {
        let list = copy_list(&self.list)?;
        let content = self.content.copy()?;
        Ok(Run {
            id: self.id,
            left: self.left,
            right: self.right,
            list,
            content,
        })
    }
}

impl Content {
    /// The same content once more.
    pub fn copy(&self) -> Result<Content, NoMemory>
        requires { IsValidContent (content_value self.now) }
        ensures { IfOk result (λ copy. content_value copy ≡ content_value self.now) }
    {
        match self {
            Content::Json(units) => Ok(Content::Json(units.copy()?)),
            Content::Binary(bytes) => Ok(Content::Binary(bytes.copy()?)),
            Content::Str(units) => Ok(Content::Str(units.copy()?)),
            Content::Embed(value) => Ok(Content::Embed(value.copy()?)),
            Content::Format { key, value } => Ok(Content::Format {
                key: key.copy()?,
                value: value.copy()?,
            }),
            Content::Nested(kind) => Ok(Content::Nested(kind.copy()?)),
            Content::Any(values) => Ok(Content::Any(values.copy()?)),
            Content::Deleted(count) => Ok(Content::Deleted(*count)),
        }
    }
}

impl JsonUnits {
    /// The same units once more.
    pub fn copy(&self) -> Result<JsonUnits, NoMemory>
        requires { Each IsValidUnit (map unit_value self.now) }
        ensures { IfOk result (λ copy. map unit_value copy ≡ map unit_value self.now) }
    {
        let units = copy_units(*self.units.allocator(), &self.units)?;
        Ok(JsonUnits { units })
    }
}

impl JsonUnit {
    /// The same unit once more.
    pub fn copy(&self) -> Result<JsonUnit, NoMemory>
        requires { IsValidUnit (unit_value self.now) }
        ensures { IfOk result (λ copy. unit_value copy ≡ unit_value self.now) }
    {
        match self {
            JsonUnit::Undefined => Ok(JsonUnit::Undefined),
            JsonUnit::Value(value) => Ok(JsonUnit::Value(value.copy()?)),
        }
    }
}

fn copy_blocks(alloc: Global, blocks: &[Block]) -> Result<Vec<Block>, NoMemory>
    requires { Each HasValidContents (map block_value blocks.now) }
    ensures { IfOk result (λ copies. map block_value copies.items ≡ map block_value blocks.now) }
{
    let mut copies = Vec::new(alloc);
    for block in blocks {
        copies.push(block.copy()?)?;
    }
    Ok(copies)
}

fn copy_structs(alloc: Global, structs: &[Struct]) -> Result<Vec<Struct>, NoMemory>
    requires { Each HasValidContent (map struct_value structs.now) }
    ensures { IfOk result (λ copies. map struct_value copies.items ≡ map struct_value structs.now) }
{
    let mut copies = Vec::new(alloc);
    for entry in structs {
        copies.push(entry.copy()?)?;
    }
    Ok(copies)
}

fn copy_list(list: &Option<List>) -> Result<Option<List>, NoMemory>
    ensures { IfOk result (λ copy. copy ≡ list.now) }
{
    match list {
        None => Ok(None),
        Some(inner) => Ok(Some(inner.copy()?)),
    }
}

fn copy_units(alloc: Global, units: &[JsonUnit]) -> Result<Vec<JsonUnit>, NoMemory>
    requires { Each IsValidUnit (map unit_value units.now) }
    ensures { IfOk result (λ copies. map unit_value copies.items ≡ map unit_value units.now) }
{
    let mut copies = Vec::new(alloc);
    for unit in units {
        copies.push(unit.copy()?)?;
    }
    Ok(copies)
}
