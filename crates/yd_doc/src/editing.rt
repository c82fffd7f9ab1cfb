//! Edits: each makes one update, and the replica takes it.

ghost use Rattle.std.specs.Prelude.{◌≡◌, ◌∷◌, [], IfOk, IfErr, OnOk, OnErr};
ghost use Rattle.yd_words.specs.Each.{Each};
ghost use Rattle.yd_ops.specs.Valid.{IsValidUpdate};
ghost use Rattle.yd_ops.specs.View.{content_value, update_value};
ghost use Rattle.yd_editing.specs.Refused.{refusal_of};
ghost use Rattle.yd_editing.specs.Step.{make as make_step, remove as remove_step};
ghost use Rattle.yd_making.specs.Steps.{steps_value, IsProper, IsCause};
ghost use Rattle.yd_doc.specs.Editing.{own_basis, IsEdit, IsPrepared, IsCommitted};

use crate::fault::NoMemory;
use crate::replica::Replica;
use yd_ids::{Id, IdSet};
use yd_making::{Basis, EditFault, Step, StepList};
use yd_ops::{Content, List, Update};

impl Replica {
    /// Carries out the steps in their order, wholly or not at all, and answers the one update that
    /// says so. Each step that makes something makes a run of the replica's client at its next clock,
    /// between the unit behind which it goes and the one that stands next, deleted or not; of two
    /// steps at one place the later run stands in front. Ids that are removed are deleted by name. No
    /// step makes an empty update.
    ///
    /// All is judged on the state before the call: every unit behind which something is made, every
    /// item of a list and every removed id has to be held then. The first refusal answers, in the
    /// order NoPlace, NotHeld, InsidePair, OwnWaiting, ClockFull, and of one kind the first step that
    /// has it. After any refusal, want of memory included, the replica is as it was, and whether it is
    /// behind does not change either way.
    ///
    /// What waits and can be held after all steps is held then. A received deletion may name a clock
    /// that the client had not reached: the unit that is made there is deleted at once, and no
    /// refusal says so. It takes time as `apply` of the update does, and some look-ups for each step
    /// that makes something.
    pub fn edit(&mut self, steps: StepList) -> Result<Update, EditFault>
        requires { Each IsProper (steps_value steps) }
        ensures done { IfOk result (λ update.
            IsEdit self.old self.new (steps_value steps) (update_value update)) }
        ensures refused { IfErr result (λ fault.
            IsCause fault (refusal_of (own_basis self.old) (steps_value steps))) }
        ensures unchanged { OnErr result (self.new ≡ self.old) }
    {
        let update = self.prepare(steps)?;
        self.commit(&update)?;
        Ok(update)
    }

    /// The update that `edit` of the steps would make. The replica has not taken it, and `commit` takes
    /// it: so a caller can keep what it has to keep of an edit before the edit is made. It refuses as
    /// `edit` does.
    pub fn prepare(&self, steps: StepList) -> Result<Update, EditFault>
        requires { Each IsProper (steps_value steps) }
        ensures made { IfOk result (λ update.
            IsPrepared self.now (steps_value steps) (update_value update)) }
        ensures refused { IfErr result (λ fault.
            IsCause fault (refusal_of (own_basis self.now) (steps_value steps))) }
    {
        let basis = Basis {
            state: &self.state,
            client: self.client,
        };
        if let Some(fault) = basis.refusal(&steps) {
            return Err(fault);
        }
        let update = basis.update(self.alloc, steps)?;
        Ok(update)
    }

    /// Receives an update as `apply` does, but for whether the replica is behind: that does not change.
    /// It is for what `prepare` made. Without memory the replica is as it was.
    pub fn commit(&mut self, update: &Update) -> Result<(), NoMemory>
        requires { IsValidUpdate (update_value update.now) }
        ensures taken { OnOk result (IsCommitted self.old self.new (update_value update.now)) }
        ensures unchanged { OnErr result (self.new ≡ self.old) }
    {
        self.state.take_copy(update)?;
        Ok(())
    }

    /// Makes a run of this content directly behind a unit of a list, or at its front: an edit of this
    /// one step.
    pub fn make(
        &mut self,
        list: &List,
        after: Option<Id>,
        content: Content,
    ) -> Result<Update, EditFault>
        requires { IsProper (make_step list.now after (content_value content)) }
        ensures done { IfOk result (λ update. IsEdit self.old self.new
            (make_step list.now after (content_value content) ∷ []) (update_value update)) }
        ensures refused { IfErr result (λ fault. IsCause fault (refusal_of (own_basis self.old)
            (make_step list.now after (content_value content) ∷ []))) }
        ensures unchanged { OnErr result (self.new ≡ self.old) }
    {
        let mut steps = StepList::new(self.state.received().allocator());
        let list = list.copy()?;
        steps.push(Step::Make {
            list,
            after,
            content,
        })?;
        let update = self.edit(steps)?;
        Ok(update)
    }

    /// Deletes ids by name, all of which have to be held: an edit of this one step. The update's
    /// deletions are these ids.
    pub fn remove(&mut self, ids: &IdSet) -> Result<Update, EditFault>
        ensures done { IfOk result (λ update. IsEdit self.old self.new
            (remove_step ids.now ∷ []) (update_value update)) }
        ensures refused { IfErr result (λ fault. IsCause fault (refusal_of (own_basis self.old)
            (remove_step ids.now ∷ []))) }
        ensures unchanged { OnErr result (self.new ≡ self.old) }
    {
        let mut steps = StepList::new(self.state.received().allocator());
        let ids = ids.copy()?;
        steps.push(Step::Remove(ids))?;
        let update = self.edit(steps)?;
        Ok(update)
    }
}
