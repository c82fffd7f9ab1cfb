//! The names of lists, by their numbers.

ghost use Rattle.std.specs.Prelude.{◌≡◌, ℕ, Some, slice_get};
ghost use Rattle.yd_words.specs.Member.{IsIn};
ghost use Rattle.yd_ops.specs.declared.lists.List.{List as DocList};
ghost use Rattle.yd_ops.specs.Operation.{Operation};
ghost use Rattle.yd_state.specs.State.{document_in};

use crate::state::State;
use yd_ops::List;

impl State {
    /// The names of lists, by number. Each list that has a unit is among them.
    pub fn names(&self) -> &[List]
        ensures names { result.now ≡ self.now.held.names }
        ensures all { (list : DocList) (o : Operation) → IsIn o ((document_in self.now).units list)
            → (n : ℕ) × (slice_get self.now.held.names n ≡ Some list) }
    {
        self.held.names()
    }
}
