//! The steps of an edit.

ghost use Rattle.std.specs.Prelude.{◌≡◌, [], ◌∷◌, ◌++◌, OnOk, OnErr};
ghost use Rattle.yd_making.specs.Steps.{step_value, len_of_step};

use crate::fault::NoMemory;
use std::alloc::Global;
use std::marker::Model;
use yd_ids::{Id, IdSet};
use yd_ops::{Content, List};

/// One change of an edit.
#[derive(Drop)]
pub enum Step {
    /// Units are made in a list.
    Make {
        /// The list.
        list: List,
        /// The unit of the list directly behind which they go, deleted or not, and none for the
        /// list's front.
        after: Option<Id>,
        /// What they hold.
        content: Content,
    },
    /// Ids are deleted.
    Remove(IdSet),
}

/// Steps in order.
#[derive(Drop)]
pub struct StepList {
    pub(crate) steps: Vec<Step>,
}

impl Model for StepList {
    ghost use Rattle.std.specs.Prelude.{List};
    ghost use Rattle.yd_making.specs.declared.step.Step.{Step};
    ghost use Rattle.yd_any.specs.contracts.any_value.AnyList as any_list;
    ghost use Rattle.yd_any.specs.contracts.json_value.Json as json;
    ghost use Rattle.std.specs.Coded.{codes};

    ghost Value = { List Step };

    ghost coded = { Prim.hlevel (codes, json.the_row.coded, any_list.the_row.coded) };

    ghost view = { λ it. it.steps.items };
}

impl StepList {
    /// No step.
    pub fn new(alloc: Global) -> StepList
        ensures { result ≡ [] }
    {
        StepList {
            steps: Vec::new(alloc),
        }
    }

    /// Appends a step. One that finds no memory is dropped.
    pub fn push(&mut self, item: Step) -> Result<(), NoMemory>
        ensures appended { OnOk result (self.new ≡ self.old ++ item ∷ []) }
        ensures unchanged { OnErr result (self.new ≡ self.old) }
    {
        self.steps.push(item)?;
        Ok(())
    }

    /// The steps as they are lent.
    pub fn as_slice(&self) -> &[Step]
        ensures { result.now ≡ self.now }
    {
        self.steps.as_slice()
    }
}

impl Step {
    /// How many units it makes.
    pub(crate) fn len(&self) -> u64
        ensures { result ≡ len_of_step (step_value self.now) }
    {
        match self {
            Step::Make { content, .. } => content.len(),
            Step::Remove(_) => 0,
        }
    }
}
