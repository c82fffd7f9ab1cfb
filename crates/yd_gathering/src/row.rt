//! Updates that are gathered one behind the other.

ghost use Rattle.std.specs.Prelude.{◌≡◌, ◌++◌, [], ◌∷◌, List, map, IfOk, OnOk};
ghost use Rattle.yd_ops.specs.Valid.{IsValidUpdate};
ghost use Rattle.yd_ops.specs.Value.{UpdateValue};
ghost use Rattle.yd_ops.specs.View.{update_value};
ghost use Rattle.yd_parts.specs.Fault.{FailsAs};
ghost use Rattle.yd_v1.specs.Log.{TakesMore, TakesV1};
ghost use Rattle.yd_v1.specs.Reading.{v1_reading};
ghost use Rattle.yd_gathering.specs.Said.{SaysInTurn};
ghost use Rattle.yd_gathering.specs.Row.{Closes, HasRow};

use crate::blocks::Blocks;
use std::alloc::Global;
use std::mem;
use yd_ids::{IdSet, Span};
use yd_ops::Update;
use yd_parts::{NoMemory, ReadError};
use yd_v1::{UpdateList, take_structs_v1};

/// Updates in the order in which they were taken, kept as fewer. Those in V1 are gathered while they
/// are read: a struct that begins where the one before it ends goes into the same block, and runs
/// that join become one. An update that was read before stays as it is, and what comes next is
/// gathered behind it.
#[derive(Drop)]
pub struct Row {
    alloc: Global,
    // Updates that stay as they came, and what was gathered before each.
    kept: UpdateList,
    // What is gathered behind them.
    blocks: Blocks,
    // The deletions of the updates that were gathered.
    names: Vec<Span>,
}

impl Row {
    /// No update.
    pub fn new(alloc: Global) -> Row
        ensures { HasRow result [] }
    {
        Row {
            alloc,
            kept: UpdateList::new(alloc),
            blocks: Blocks::new(alloc),
            names: Vec::new(alloc),
        }
    }

    /// Many blocks were begun, so updates seem to come out of turn. It says only what is worth while.
    pub fn is_scattered(&self) -> bool {
        self.blocks.are_many()
    }

    /// Takes an update, which stays as it is.
    pub fn take(&mut self, update: Update) -> Result<(), NoMemory>
        requires { IsValidUpdate (update_value update) }
        ensures { OnOk result
            (TakesMore (HasRow self.old) (HasRow self.new) (update_value update ∷ [])) }
    {
        self.close()?;
        self.kept.push(update)?;
        Ok(())
    }

    /// Takes the update that bytes in V1 stand for, or tells the first fault in them.
    pub fn take_v1(&mut self, alloc: Global, bytes: &[u8]) -> Result<(), ReadError>
        ensures took { OnOk result (TakesV1 bytes.now (HasRow self.old) (HasRow self.new)) }
        ensures fails { FailsAs result (v1_reading bytes.now) }
    {
        let deletes = take_structs_v1(alloc, bytes, &mut self.blocks)?;
        note(&mut self.names, &deletes)?;
        Ok(())
    }

    /// Updates that say in turn what those that were taken say. Where all were taken in V1, it is one
    /// update. It takes the time of sorting the deletions.
    pub fn finish(self) -> Result<UpdateList, NoMemory>
        requires { (taken : List UpdateValue) × HasRow self taken }
        ensures { IfOk result (λ list. (taken : List UpdateValue)
            → HasRow self taken → SaysInTurn taken (map update_value list)) }
    {
        let Row {
            alloc,
            kept,
            blocks,
            names,
        } = self;
        let Ok(blocks) = blocks.into_list() else {
            return Err(NoMemory);
        };
        let Ok(deletes) = IdSet::of_spans(alloc, names) else {
            return Err(NoMemory);
        };
        let mut list = kept;
        list.push(Update { blocks, deletes })?;
        Ok(list)
    }

    // Puts what was gathered, if there is something, behind the updates that are kept.
    fn close(&mut self) -> Result<(), NoMemory>
        ensures { OnOk result (Closes self.old self.new) }
    {
        let gathered = mem::replace(&mut self.blocks, Blocks::new(self.alloc));
        let Ok(blocks) = gathered.into_list() else {
            return Err(NoMemory);
        };
        if blocks.as_slice().is_empty() {
            return Ok(());
        }
        let deletes = IdSet::new(self.alloc);
        self.kept.push(Update { blocks, deletes })?;
        Ok(())
    }
}

// Notes the spans of a set.
fn note(names: &mut Vec<Span>, deletes: &IdSet) -> Result<(), NoMemory>
    ensures { OnOk result (names.new.items ≡ names.old.items ++ deletes.now) }
{
    for span in deletes.spans() {
        names.push(span)?;
    }
    Ok(())
}
