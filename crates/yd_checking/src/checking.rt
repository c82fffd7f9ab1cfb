//! What is told of updates.

ghost use Rattle.std.specs.Prelude.{map, IfOk};
ghost use Rattle.yd_words.specs.Each.{Each};
ghost use Rattle.yd_ops.specs.Valid.{IsValidUpdate};
ghost use Rattle.yd_ops.specs.View.{update_value};
ghost use Rattle.yd_checking.specs.Findings.{IsFound};

use crate::counts::{Counts, count};
use crate::fault::NoMemory;
use std::alloc::Global;
use yd_agreement::disagree;
use yd_honesty::dishonest;
use yd_ids::Id;
use yd_ops::Update;
use yd_state::State;

/// What was found of updates.
#[derive(Clone, Copy, Debug, PartialEq, Eq)]
pub struct Findings {
    /// How much of them is held, waits and is deleted.
    pub counts: Counts,
    /// The smallest id on which they disagree, if they do.
    pub disagreement: Option<Id>,
    /// The smallest id of a held unit that breaks the edit rules, if one does.
    pub dishonest: Option<Id>,
}

/// Receives updates in their order, and tells how much is held, waits and is deleted, and whether
/// they agree and keep the edit rules (own). Where a unit breaks these rules, the deleted units are
/// counted in the document that this replica of the updates has. Updates that do not agree are
/// counted as they were received: of an id the first operation stays unless another one says less.
/// It takes the time and memory of receiving the updates, of `disagree` and of `dishonest`.
pub fn check(alloc: Global, updates: Vec<Update>) -> Result<Findings, NoMemory>
    requires { Each IsValidUpdate (map update_value updates.items) }
    ensures { IfOk result (λ found. IsFound found (map update_value updates.items)) }
{
    let disagreement = disagree(alloc, &updates)?;
    let state = State::of_updates(alloc, updates)?;
    let breach = dishonest(alloc, state.held())?;
    Ok(Findings {
        counts: count(&state),
        disagreement,
        dishonest: breach,
    })
}
