//! Why an edit is refused: the first refusal of its steps, all judged on the state before it.

ghost use Rattle.std.specs.Prelude.{◌≡◌, Some, IfSome};
ghost use Rattle.yd_words.specs.Each.{Each};
ghost use Rattle.yd_ids.specs.Id.{IsClient, IsId, IsSpan, IsClock};
ghost use Rattle.yd_meaning.specs.Names.{item_of_parent};
ghost use Rattle.yd_editing.specs.Refused.{first_of_steps, place_refusal, parent_refusal, after_refusal};
ghost use Rattle.yd_editing.specs.Refused.{removal_refusal, span_refusal, spans_refusal};
ghost use Rattle.yd_editing.specs.Refused.{pair_refusal, half_refusal, has_high, waiting_refusal, clock_refusal};
ghost use Rattle.yd_editing.specs.Refused.{refusal_of};
ghost use Rattle.yd_making.specs.Given.{basis_of_given};
ghost use Rattle.yd_making.specs.Steps.{step_value, steps_value, IsProper, fault_given, waits_refusal};

use crate::basis::Basis;
use crate::fault::EditFault;
use crate::finding::find;
use crate::kinds::has_type;
use crate::step::{Step, StepList};
use crate::waiting::first_clock;
use yd_ids::{Id, IdSet, Span};
use yd_ops::{List, Parent};

/// Behind the last clock.
const CLOCKS_END: u64 = 1 << 53;

impl<'a> Basis<'a> {
    /// Why an edit of these steps is refused, and nothing where it is not. All steps are asked for
    /// one kind of refusal before any is asked for the next: NoPlace, NotHeld, InsidePair,
    /// OwnWaiting, ClockFull. Of one kind the first step that has it answers. It takes no memory, and
    /// some look-ups for each step that makes something.
    pub fn refusal(&self, steps: &StepList) -> Option<EditFault>
        requires client { IsClient self.now.client }
        requires proper { Each IsProper (steps_value steps.now) }
        ensures { result
            ≡ fault_given (refusal_of (basis_of_given self.now) (steps_value steps.now)) }
    {
        let steps = steps.as_slice();
        if let Some(fault) = self.place_fault(steps) {
            return Some(fault);
        }
        if let Some(fault) = self.removal_fault(steps) {
            return Some(fault);
        }
        if let Some(fault) = self.pair_fault(steps) {
            return Some(fault);
        }
        if let Some(fault) = self.waiting_fault(steps) {
            return Some(fault);
        }
        clock_fault(self.next_clock(), steps)
    }

    /// The first place that is none.
    fn place_fault(&self, steps: &[Step]) -> Option<EditFault>
        ensures { result ≡ fault_given
            (first_of_steps (place_refusal (basis_of_given self.now)) (steps_value steps.now)) }
    {
        for step in steps {
            if let Some(fault) = self.step_place(step) {
                return Some(fault);
            }
        }
        None
    }

    /// The place of a step, where it is none.
    fn step_place(&self, step: &Step) -> Option<EditFault>
        ensures { result
            ≡ fault_given (place_refusal (basis_of_given self.now) (step_value step.now)) }
    {
        match step {
            Step::Make { list, after, .. } => match self.parent_fault(&list.parent) {
                Some(fault) => Some(fault),
                None => self.after_fault(list, *after),
            },
            Step::Remove(_) => None,
        }
    }

    /// The item of a parent, where it is no type item that is held.
    fn parent_fault(&self, parent: &Parent) -> Option<EditFault>
        ensures { result ≡ fault_given
            (parent_refusal (basis_of_given self.now) (item_of_parent parent.now)) }
    {
        match parent {
            Parent::Root(_) => None,
            Parent::Item(id) => self.item_fault(*id),
        }
    }

    /// The item, where it is no type item that is held.
    fn item_fault(&self, id: Id) -> Option<EditFault>
        ensures { result ≡ fault_given (parent_refusal (basis_of_given self.now) (Some id)) }
    {
        if self.has_type(id) {
            return None;
        }
        Some(EditFault::NoPlace(id))
    }

    /// The unit with the id is held and not lost, and holds a type.
    pub fn has_type(&self, id: Id) -> bool
        ensures { result ≡ (basis_of_given self.now).has_type id }
    {
        has_type(self.state.received(), id)
    }

    /// The unit behind which something is made, where it is none of the list.
    fn after_fault(&self, list: &List, after: Option<Id>) -> Option<EditFault>
        ensures { result ≡ fault_given
            (after_refusal ((basis_of_given self.now).document.units list.now) after) }
    {
        match after {
            None => None,
            Some(id) => match find(self.state, list, id) {
                None => Some(EditFault::NoPlace(id)),
                Some(_) => None,
            },
        }
    }

    /// The first removed id that is not held.
    fn removal_fault(&self, steps: &[Step]) -> Option<EditFault>
        ensures { result ≡ fault_given
            (first_of_steps (removal_refusal (basis_of_given self.now)) (steps_value steps.now)) }
    {
        for step in steps {
            if let Some(fault) = self.step_removal(step) {
                return Some(fault);
            }
        }
        None
    }

    /// The first of a step's removed ids that is not held.
    fn step_removal(&self, step: &Step) -> Option<EditFault>
        ensures { result ≡ fault_given
            (removal_refusal (basis_of_given self.now) (step_value step.now)) }
    {
        match step {
            Step::Make { .. } => None,
            Step::Remove(spans) => self.spans_fault(spans),
        }
    }

    /// The first id that is not held.
    fn spans_fault(&self, spans: &IdSet) -> Option<EditFault>
        ensures { result ≡ fault_given
            (spans_refusal (basis_of_given self.now).vector spans.now) }
    {
        let vector = self.state.vector();
        for span in spans.spans() {
            if let Some(fault) = span_fault(span, vector.get(span.client)) {
                return Some(fault);
            }
        }
        None
    }

    /// The first place that parts a pair.
    fn pair_fault(&self, steps: &[Step]) -> Option<EditFault>
        requires { Each IsProper (steps_value steps.now) }
        ensures { result ≡ fault_given
            (first_of_steps (pair_refusal (basis_of_given self.now)) (steps_value steps.now)) }
    {
        for step in steps {
            if let Some(fault) = self.step_pair(step) {
                return Some(fault);
            }
        }
        None
    }

    /// The place of a step, where it parts a pair.
    fn step_pair(&self, step: &Step) -> Option<EditFault>
        requires { IsProper (step_value step.now) }
        ensures { result
            ≡ fault_given (pair_refusal (basis_of_given self.now) (step_value step.now)) }
    {
        match step {
            Step::Make { list, after, .. } => self.half_fault(list, *after),
            Step::Remove(_) => None,
        }
    }

    /// The place behind a unit of a list, where that is a high half and the clock behind it is held.
    fn half_fault(&self, list: &List, after: Option<Id>) -> Option<EditFault>
        requires { IfSome after IsId }
        ensures { result ≡ fault_given (half_refusal (basis_of_given self.now)
            ((basis_of_given self.now).document.units list.now) after) }
    {
        match after {
            None => None,
            Some(id) => {
                if self.is_high(list, id) && id.clock + 1 < self.state.vector().get(id.client) {
                    return Some(EditFault::InsidePair(id.clock));
                }
                None
            }
        }
    }

    /// The unit is one of the list, and the first half of a pair.
    pub fn is_high(&self, list: &List, id: Id) -> bool
        ensures { result ≡ has_high ((basis_of_given self.now).document.units list.now) id }
    {
        match find(self.state, list, id) {
            None => false,
            Some(found) => found.is_high,
        }
    }

    /// The smallest clock of the own client that waits, where a step makes something.
    fn waiting_fault(&self, steps: &[Step]) -> Option<EditFault>
        requires { IsClient self.now.client }
        ensures { result ≡ fault_given
            (first_of_steps (waiting_refusal (basis_of_given self.now)) (steps_value steps.now)) }
    {
        let waits = self.own_waiting();
        for step in steps {
            if let Some(fault) = step_waiting(waits, step) {
                return Some(fault);
            }
        }
        None
    }

    /// The smallest clock of the own client that waits.
    fn own_waiting(&self) -> Option<u64>
        requires { IsClient self.now.client }
        ensures { result ≡ (basis_of_given self.now).waits }
    {
        let reached = self.state.held().vector().get(self.client);
        first_clock(self.state.received().entries(), self.client, reached)
    }

    /// The clock of the first unit that is made.
    pub(crate) fn next_clock(&self) -> u64
        requires { IsClient self.now.client }
        ensures clock { result ≡ (basis_of_given self.now).vector self.now.client.0 }
        ensures bound { IsClock result }
    {
        self.state.vector().get(self.client)
    }
}

/// The first of a span's ids that is not below a clock.
fn span_fault(span: Span, reached: u64) -> Option<EditFault>
    requires { IsSpan span }
    ensures { result ≡ fault_given (span_refusal (λ client. reached) span) }
{
    if span.clock + span.len <= reached {
        return None;
    }
    Some(EditFault::NotHeld(Id {
        client: span.client,
        clock: if reached <= span.clock {
            span.clock
        } else {
            reached
        },
    }))
}

/// The clock that waits, where the step makes something.
fn step_waiting(waits: Option<u64>, step: &Step) -> Option<EditFault>
    ensures { result ≡ fault_given (waits_refusal waits (step_value step.now)) }
{
    match step {
        Step::Make { .. } => match waits {
            None => None,
            Some(clock) => Some(EditFault::OwnWaiting(clock)),
        },
        Step::Remove(_) => None,
    }
}

/// The clock at which the first run begins that would end past the last clock.
fn clock_fault(clock: u64, steps: &[Step]) -> Option<EditFault>
    requires { IsClock clock }
    ensures { result ≡ fault_given (clock_refusal clock (steps_value steps.now)) }
{
    let mut next = clock;
    for step in steps {
        let len = step.len();
        if CLOCKS_END - next <= len {
            return Some(EditFault::ClockFull(next));
        }
        next += len;
    }
    None
}
