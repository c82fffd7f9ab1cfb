//! Gathering the units of a list into its values, in one pass.

ghost use Rattle.std.specs.Prelude.{◌≡◌, ◌<◌, ◌∷◌, [], List, true, false, length, map, IfOk, OnOk};
ghost use Rattle.yd_any.specs.Tree.{AnyTree, no_fields};
ghost use Rattle.yd_ops.specs.Operation.{UnitContent, text_unit, Operation};
ghost use Rattle.yd_state.specs.Lent.{Lent};
ghost use Rattle.yd_value.specs.View.{shown_tree, shown_trees};
ghost use Rattle.yd_modes.specs.Roles.{Values, role_of, is_value, pieces_by, bare, whole_units, AreIdle};
ghost use Rattle.yd_modes.specs.Gathering.{told, told_values, live, IsSilent};
ghost use Rattle.yd_modes.specs.Listed.{listed, Lists, Silences, Ends};

use crate::fault::NoMemory;
use crate::texts::text_of;
use std::alloc::Global;
use std::mem;
use yd_ids::{Client, Id};
use yd_units::Units;
use yd_value::{Shown, ShownList};
use yd_view::{Halves, Seen};

/// The values of the units of a list that came so far. Text is open until a value comes.
#[derive(Drop)]
pub struct Listed {
    /// The values before the open text.
    pub values: ShownList,
    /// The open text.
    pub halves: Halves,
}

impl Listed {
    /// No unit came yet.
    pub fn new(alloc: Global) -> Listed
        ensures { (show : Operation → AnyTree) (us : List Lent) → listed show result us
            ≡ map told (pieces_by Values show no_fields (whole_units false us)) }
    {
        Listed {
            values: ShownList::new(alloc),
            halves: Halves {
                shown: Vec::new(alloc),
                last: None,
                joined: false,
            },
        }
    }

    /// A text unit comes.
    pub fn take_unit(&mut self, id: Id, unit: u16) -> Result<(), NoMemory>
        ensures { OnOk result ((show : Operation → AnyTree)
            → Lists show self.old self.new (live id (text_unit unit) ∷ [])) }
    {
        self.halves.take(Seen {
            id,
            unit: Some(unit),
        })?;
        Ok(())
    }

    /// Units come that give nothing. One of them stands for all.
    pub fn take_idle(&mut self, id: Id) -> Result<(), NoMemory>
        ensures { OnOk result ((show : Operation → AnyTree) (came : List Lent)
            → 0 < length came → AreIdle Values came → Lists show self.old self.new came) }
    {
        self.silence(id)
    }

    /// A value comes.
    pub fn take_value(&mut self, alloc: Global, id: Id, value: Shown) -> Result<(), NoMemory>
        ensures { OnOk result ((show : Operation → AnyTree) (content : UnitContent)
            → role_of Values content ≡ is_value → shown_tree value ≡ show (bare id content)
            → Lists show self.old self.new (live id content ∷ [])) }
    {
        self.silence(id)?;
        self.end(alloc)?;
        self.values.push(value)?;
        Ok(())
    }

    /// The values, where no more units come.
    pub fn finish(mut self, alloc: Global) -> Result<ShownList, NoMemory>
        ensures { IfOk result (λ values. (show : Operation → AnyTree)
            → shown_trees values ≡ told_values (listed show self [])) }
    {
        self.silence(Id {
            client: Client(0),
            clock: 0,
        })?;
        self.end(alloc)?;
        Ok(self.values)
    }

    /// The unit that came last is shown, since one comes that is no text.
    fn silence(&mut self, id: Id) -> Result<(), NoMemory>
        ensures { OnOk result (Silences self.old self.new) }
    {
        if is_silent(self.halves.last) {
            return Ok(());
        }
        self.halves.take(Seen { id, unit: None })?;
        Ok(())
    }

    /// The open text becomes a value, where it has a unit.
    fn end(&mut self, alloc: Global) -> Result<(), NoMemory>
        ensures { OnOk result (Ends self.old self.new) }
    {
        if self.halves.shown.is_empty() {
            return Ok(());
        }
        let units = mem::replace(&mut self.halves.shown, Vec::new(alloc));
        let text = text_of(alloc, Units::of_units(units))?;
        self.values.push(text)?;
        Ok(())
    }
}

/// Whether no text unit came last.
fn is_silent(last: Option<Seen>) -> bool
    ensures silent { result ≡ true → IsSilent last }
{
    match last {
        None => true,
        Some(seen) => seen.unit.is_none(),
    }
}
