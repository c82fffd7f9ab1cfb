//! The update of an edit.

ghost use Rattle.std.specs.Prelude.{◌≡◌, None, IfOk};
ghost use Rattle.yd_words.specs.Each.{Each};
ghost use Rattle.yd_ids.specs.Id.{IsClient};
ghost use Rattle.yd_ops.specs.Valid.{IsValidUpdate};
ghost use Rattle.yd_ops.specs.View.{update_value};
ghost use Rattle.yd_editing.specs.Made.{update_of_edit};
ghost use Rattle.yd_editing.specs.Refused.{refusal_of};
ghost use Rattle.yd_making.specs.Given.{basis_of_given};
ghost use Rattle.yd_making.specs.Steps.{steps_value, IsProper};

use crate::basis::Basis;
use crate::fault::NoMemory;
use crate::gathering::removed;
use crate::step::StepList;
use crate::structs::{block_of, structs_of};
use std::alloc::Global;
use yd_ops::Update;

impl<'a> Basis<'a> {
    /// The update of an edit of these steps, which is not refused: one item for each step that makes
    /// something, in one block, and the ids that are removed. Contents are moved into it, and none is
    /// copied. For each step that makes something it takes some look-ups, and a look at each earlier
    /// step.
    pub fn update(&self, alloc: Global, steps: StepList) -> Result<Update, NoMemory>
        requires client { IsClient self.now.client }
        requires proper { Each IsProper (steps_value steps) }
        requires accepted { refusal_of (basis_of_given self.now) (steps_value steps) ≡ None }
        ensures made { IfOk result (λ update. update_value update
            ≡ update_of_edit (basis_of_given self.now) (steps_value steps)) }
        ensures valid { IfOk result (λ update. IsValidUpdate (update_value update)) }
    {
        // What is kept is looked at, since its invariant says that ids are in range.
        let _received = self.state.received();
        let clock = self.next_clock();
        let rights = self.rights(alloc, clock, steps.as_slice())?;
        let deletes = removed(alloc, steps.as_slice())?;
        let structs = structs_of(alloc, self.client, clock, steps.steps, rights)?;
        let blocks = block_of(alloc, self.client, clock, structs)?;
        Ok(Update { blocks, deletes })
    }
}
