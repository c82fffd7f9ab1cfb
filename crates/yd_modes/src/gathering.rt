//! Gathering the units of a list into pieces of text and values, in one pass.

ghost use Rattle.std.specs.Prelude.{◌≡◌, ◌<◌, ◌∷◌, [], ℕ, List, false, length, map, IfOk, OnOk};
ghost use Rattle.yd_any.specs.Tree.{AnyTree, no_fields};
ghost use Rattle.yd_any.specs.JsonView.{json_tree};
ghost use Rattle.yd_ops.specs.Operation.{UnitContent, text_unit, mark as mark_unit, Operation};
ghost use Rattle.yd_state.specs.Lent.{Lent};
ghost use Rattle.yd_value.specs.View.{shown_tree};
ghost use Rattle.yd_modes.specs.Roles.{Way, Delta, role_of, is_value, pieces_by, bare, whole_units, AreIdle};
ghost use Rattle.yd_modes.specs.Marks.{marks_fields};
ghost use Rattle.yd_modes.specs.Gathering.{told, made, gathered, live, IsSettled, Gathers, Closes, Flushes};

use crate::fault::NoMemory;
use crate::marks::{Mark, are_same, copy_marks, fields_of, set_mark};
use crate::piece::Piece;
use crate::texts::text_of;
use std::alloc::Global;
use std::mem;
use yd_ids::{Client, Id};
use yd_units::Units;
use yd_value::Shown;
use yd_view::{Halves, Seen};

/// The pieces of the units that came so far. Text is open until a value comes, or text under other
/// attributes.
#[derive(Drop)]
pub struct Gathering<'a> {
    /// The pieces before the open text.
    pub pieces: Vec<Piece>,
    /// The open text.
    pub halves: Halves,
    /// Its attributes.
    pub under: Vec<Mark<'a>>,
    /// The attributes in force.
    pub marks: Vec<Mark<'a>>,
}

impl<'a> Gathering<'a> {
    /// No unit came yet.
    pub fn new(alloc: Global) -> Gathering<'a>
        ensures pieces { (way : Way) (show : Operation → AnyTree) (us : List Lent)
            → gathered way show result us
            ≡ map told (pieces_by way show no_fields (whole_units false us)) }
        ensures settled { IsSettled result }
    {
        Gathering {
            pieces: Vec::new(alloc),
            halves: Halves {
                shown: Vec::new(alloc),
                last: None,
                joined: false,
            },
            under: Vec::new(alloc),
            marks: Vec::new(alloc),
        }
    }

    /// The attributes in force become those of the open text, before a text unit. The text before
    /// it is a piece, where its attributes are others.
    pub fn open(&mut self, alloc: Global) -> Result<(), NoMemory>
        requires { IsSettled self.old }
        ensures pieces { OnOk result ((way : Way) (show : Operation → AnyTree)
            (id : Id) (unit : ℕ) (us : List Lent)
            → gathered way show self.new (live id (text_unit unit) ∷ us)
            ≡ gathered way show self.old (live id (text_unit unit) ∷ us)) }
        ensures open { OnOk result
            (marks_fields self.new.under.items ≡ marks_fields self.new.marks.items) }
    {
        if are_same(&self.under, &self.marks) {
            return Ok(());
        }
        self.close(alloc)?;
        self.under = copy_marks(alloc, &self.marks)?;
        Ok(())
    }

    /// A text unit comes under the attributes of the open text.
    pub fn take_unit(&mut self, id: Id, unit: u16) -> Result<(), NoMemory>
        requires { marks_fields self.old.under.items ≡ marks_fields self.old.marks.items }
        ensures gathers { OnOk result ((way : Way) (show : Operation → AnyTree)
            → Gathers way show self.old self.new (live id (text_unit unit) ∷ [])) }
        ensures open { OnOk result
            (marks_fields self.new.under.items ≡ marks_fields self.new.marks.items) }
    {
        self.halves.take(Seen {
            id,
            unit: Some(unit),
        })?;
        Ok(())
    }

    /// Units come that give nothing. One of them stands for all.
    pub fn take_idle(&mut self, id: Id) -> Result<(), NoMemory>
        ensures { OnOk result ((way : Way) (show : Operation → AnyTree) (came : List Lent)
            → 0 < length came → AreIdle way came → Gathers way show self.old self.new came) }
    {
        self.flush(id)
    }

    /// A mark comes, in a delta.
    pub fn take_mark(&mut self, id: Id, mark: Mark<'a>) -> Result<(), NoMemory>
        ensures { OnOk result ((show : Operation → AnyTree)
            → Gathers Delta show self.old self.new
            (live id (mark_unit mark.entry.key.now (json_tree mark.entry.value.now)) ∷ [])) }
    {
        self.flush(id)?;
        set_mark(&mut self.marks, mark)
    }

    /// A value comes.
    pub fn take_value(&mut self, alloc: Global, id: Id, value: Shown) -> Result<(), NoMemory>
        ensures { OnOk result ((way : Way) (show : Operation → AnyTree) (content : UnitContent)
            → role_of way content ≡ is_value → shown_tree value ≡ show (bare id content)
            → Gathers way show self.old self.new (live id content ∷ [])) }
    {
        self.flush(id)?;
        self.close(alloc)?;
        let attributes = fields_of(alloc, &self.marks)?;
        self.pieces.push(Piece {
            insert: value,
            attributes,
        })?;
        Ok(())
    }

    /// The pieces, where no more units come.
    pub fn finish(mut self, alloc: Global) -> Result<Vec<Piece>, NoMemory>
        ensures { IfOk result (λ pieces. (way : Way) (show : Operation → AnyTree)
            → map made pieces.items ≡ gathered way show self.entry []) }
    {
        self.flush(Id {
            client: Client(0),
            clock: 0,
        })?;
        self.close(alloc)?;
        Ok(self.pieces)
    }

    /// The open text is complete, since a unit comes that is no text.
    fn flush(&mut self, id: Id) -> Result<(), NoMemory>
        ensures { OnOk result (Flushes self.old self.new id) }
    {
        self.halves.take(Seen { id, unit: None })?;
        Ok(())
    }

    /// The open text becomes a piece, where it has a unit.
    fn close(&mut self, alloc: Global) -> Result<(), NoMemory>
        ensures { OnOk result (Closes self.old self.new) }
    {
        if self.halves.shown.is_empty() {
            return Ok(());
        }
        let units = mem::replace(&mut self.halves.shown, Vec::new(alloc));
        let insert = text_of(alloc, Units::of_units(units))?;
        let attributes = fields_of(alloc, &self.under)?;
        self.pieces.push(Piece { insert, attributes })?;
        Ok(())
    }
}
