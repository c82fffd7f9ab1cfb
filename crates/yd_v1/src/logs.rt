//! Updates in a row, as a log has them, and what takes them one after another.

ghost use Rattle.std.specs.Prelude.{◌≡◌, [], ◌∷◌, ◌++◌, List, OnOk, OnErr};
ghost use Rattle.yd_ops.specs.Valid.{IsValidUpdate};
ghost use Rattle.yd_ops.specs.Value.{UpdateValue};
ghost use Rattle.yd_ops.specs.View.{update_value};
ghost use Rattle.yd_parts.specs.Fault.{FailsAs};
ghost use Rattle.yd_v1.specs.Log.{TakesMore, TakesV1};
ghost use Rattle.yd_v1.specs.Reading.{v1_reading};

use crate::reading::read_update_v1;
use std::alloc::Global;
use std::marker::Model;
use yd_ops::Update;
use yd_parts::{NoMemory, ReadError};

/// What takes updates, one after another: it keeps them, writes them at once, or keeps less.
pub trait UpdateTaker {
    /// These are the updates that it took, in their order.
    ghost took: { Self → List UpdateValue → Type 0 };

    /// Takes an update. After want of memory it is left open which updates were taken.
    fn take(&mut self, update: Update) -> Result<(), NoMemory>
        requires { IsValidUpdate (update_value update) }
        ensures { OnOk result
            (TakesMore (took self.old) (took self.new) (update_value update ∷ [])) };

    /// Takes the update that bytes in V1 stand for, or tells the first fault in them. After an error
    /// it is left open which updates were taken.
    fn take_v1(&mut self, alloc: Global, bytes: &[u8]) -> Result<(), ReadError>
        ensures took { OnOk result (TakesV1 bytes.now (took self.old) (took self.new)) }
        ensures fails { FailsAs result (v1_reading bytes.now) };
}

/// Updates in order, as a log has them.
#[derive(Drop)]
pub struct UpdateList {
    updates: Vec<Update>,
}

impl Model for UpdateList {
    ghost use Rattle.std.specs.Prelude.{List};
    ghost use Rattle.yd_ops.specs.declared.updates.Update.{Update};
    ghost use Rattle.yd_any.specs.contracts.any_value.AnyList as any_list;
    ghost use Rattle.yd_any.specs.contracts.json_value.Json as json;
    ghost use Rattle.std.specs.Coded.{codes};

    ghost Value = { List Update };

    ghost coded = { Prim.hlevel (codes, json.the_row.coded, any_list.the_row.coded) };

    ghost view = { λ it. it.updates.items };
}

impl UpdateList {
    /// No update.
    pub fn new(alloc: Global) -> UpdateList
        ensures { result ≡ [] }
    {
        UpdateList {
            updates: Vec::new(alloc),
        }
    }

    /// Appends an update. One that finds no memory is dropped.
    pub fn push(&mut self, update: Update) -> Result<(), NoMemory>
        ensures appended { OnOk result (self.new ≡ self.old ++ update ∷ []) }
        ensures unchanged { OnErr result (self.new ≡ self.old) }
    {
        self.updates.push(update)?;
        Ok(())
    }

    /// Appends the updates of another list. Where they find no memory, they are dropped. Behind no
    /// update they stay where they are.
    pub fn append(&mut self, other: UpdateList) -> Result<(), NoMemory>
        ensures appended { OnOk result (self.new ≡ self.old ++ other) }
        ensures unchanged { OnErr result (self.new ≡ self.old) }
    {
        if self.updates.is_empty() {
            self.updates = other.updates;
            return Ok(());
        }
        let mut more = other;
        self.updates.append(&mut more.updates)?;
        Ok(())
    }

    /// The updates as they are lent.
    pub fn as_slice(&self) -> &[Update]
        ensures { result.now ≡ self.now }
    {
        self.updates.as_slice()
    }

    /// The updates, handed out.
    pub fn into_vec(self) -> Vec<Update>
        ensures { result.items ≡ self }
    {
        self.updates
    }
}

impl UpdateTaker for UpdateList {
    ghost use Rattle.std.specs.Prelude.{map};

    ghost took = { λ list taken. taken ≡ map update_value list };

    fn take(&mut self, update: Update) -> Result<(), NoMemory> {
        self.push(update)?;
        Ok(())
    }

    fn take_v1(&mut self, alloc: Global, bytes: &[u8]) -> Result<(), ReadError> {
        let update = read_update_v1(alloc, bytes)?;
        self.push(update)?;
        Ok(())
    }
}
