//! Which run has a unit.

ghost use Rattle.std.specs.Prelude.{◌≡◌, ℕ, Option};
ghost use Rattle.yd_ids.specs.declared.id.Id.{Id as Ident};

use yd_ids::Id;

/// Something that knows the place of the run with a unit. Its ghost member says which place it is.
pub trait Finds {
    ghost places: { Self → Ident → Option ℕ };

    /// The place of the run that has this unit, or None where none has it.
    fn find(&self, id: Id) -> Option<usize>
        ensures { result ≡ places self.now id };
}
