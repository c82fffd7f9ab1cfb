//! The right origins of what is made: the unit that stands next, deleted or not.

ghost use Rattle.std.specs.Prelude.{◌≡◌, [], Some, None, IfOk};
ghost use Rattle.yd_ids.specs.Id.{IsClient, IsClock};
ghost use Rattle.yd_ids.specs.Ids.{is_same_neighbour};
ghost use Rattle.yd_editing.specs.Made.{units_behind, id_of_first};
ghost use Rattle.yd_editing.specs.Refused.{clock_refusal};
ghost use Rattle.yd_making.specs.Given.{basis_of_given};
ghost use Rattle.yd_making.specs.Rights.{makes_at, latest_of, right_of, rights_from};
ghost use Rattle.yd_making.specs.Steps.{step_value, steps_value};

use crate::basis::Basis;
use crate::fault::NoMemory;
use crate::finding::{find, first_of};
use crate::step::Step;
use std::alloc::Global;
use yd_ids::{Client, Id, is_same};
use yd_names::is_same_list;
use yd_ops::List;

impl<'a> Basis<'a> {
    /// The right origin of what each step makes, where the first begins at a clock; a removal has
    /// none. Of two steps that make something at one place the later one stands in front.
    pub(crate) fn rights(
        &self,
        alloc: Global,
        clock: u64,
        steps: &[Step],
    ) -> Result<Vec<Option<Id>>, NoMemory>
        requires clock { IsClock clock }
        requires fits { clock_refusal clock (steps_value steps.now) ≡ None }
        ensures { IfOk result (λ rights. rights.items ≡ rights_from self.now.client clock
            (basis_of_given self.now).document.units [] (steps_value steps.now)) }
    {
        let mut rights = Vec::new(alloc);
        for i in 0..steps.len() {
            let right = self.right(clock, &steps[..i], &steps[i]);
            rights.push(right)?;
        }
        Ok(rights)
    }

    /// The right origin of what a step makes behind others.
    fn right(&self, clock: u64, before: &[Step], step: &Step) -> Option<Id>
        requires clock { IsClock clock }
        requires fits { clock_refusal clock (steps_value before.now) ≡ None }
        ensures { result ≡ right_of self.now.client clock (basis_of_given self.now).document.units
            (steps_value before.now) (step_value step.now) }
    {
        match step {
            Step::Make { list, after, .. } => {
                match latest(self.client, clock, before, list, *after) {
                    Some(id) => Some(id),
                    None => self.behind(list, *after),
                }
            }
            Step::Remove(_) => None,
        }
    }

    /// The unit that stands behind one of a list before the edit, or at the list's front.
    fn behind(&self, list: &List, after: Option<Id>) -> Option<Id>
        ensures { result ≡ id_of_first
            (units_behind after ((basis_of_given self.now).document.units list.now)) }
    {
        match after {
            None => first_of(self.state, list),
            Some(id) => match find(self.state, list, id) {
                None => None,
                Some(found) => found.next,
            },
        }
    }
}

/// The first unit of the last run that steps make at a place, where one does. The first of them
/// begins at a clock.
fn latest(client: Client, clock: u64, steps: &[Step], list: &List, after: Option<Id>) -> Option<Id>
    requires clock { IsClock clock }
    requires fits { clock_refusal clock (steps_value steps.now) ≡ None }
    ensures { result ≡ latest_of client clock (steps_value steps.now) list.now after None }
{
    let mut next = clock;
    let mut latest = None;
    for step in steps {
        if makes_at(step, list, after) {
            latest = Some(Id {
                client,
                clock: next,
            });
        }
        next += step.len();
    }
    latest
}

/// The step makes something at the place.
fn makes_at(step: &Step, list: &List, after: Option<Id>) -> bool
    ensures { result ≡ makes_at (step_value step.now) list.now after }
{
    match step {
        Step::Make {
            list: other,
            after: behind,
            ..
        } => is_same_list(list, other) && is_same_place(*behind, after),
        Step::Remove(_) => false,
    }
}

/// Both are the front, or one unit.
fn is_same_place(a: Option<Id>, b: Option<Id>) -> bool
    ensures { result ≡ is_same_neighbour a b }
{
    match a {
        None => b.is_none(),
        Some(id) => is_unit(b, id),
    }
}

/// It is this unit.
fn is_unit(place: Option<Id>, id: Id) -> bool
    ensures { result ≡ is_same_neighbour (Some id) place }
{
    match place {
        None => false,
        Some(other) => is_same(id, other),
    }
}
