//! The laws of a replica's edits, each the contract of a function that does nothing.

ghost use Rattle.std.specs.Prelude.{◌≡◌, List, None};
ghost use Rattle.yd_words.specs.Each.{Each};
ghost use Rattle.yd_grouping.specs.Grouped.{IsGrouped};
ghost use Rattle.yd_editing.specs.Law.{MakesContent, EditIsTakenOn, IsStepInRange};
ghost use Rattle.yd_editing.specs.Made.{update_of_edit};
ghost use Rattle.yd_editing.specs.Refused.{refusal_of};
ghost use Rattle.yd_editing.specs.Step.{Step};
ghost use Rattle.yd_doc.specs.Editing.{own_basis, EditsGrow};
ghost use Rattle.yd_doc.specs.Kept.{received_of};

use crate::replica::Replica;

/// Where an edit is not refused, what is received after it is what was there with the made operations
/// and the removed ids. Where what is held is honest, it is so at the moment when they are made,
/// before anything that waited is held, each operation keeps the edit rules, and each stands directly
/// behind the unit that its step names.
pub fn edits_are_taken(replica: &Replica)
    ensures { (steps : List Step) → Each MakesContent steps
        → refusal_of (own_basis replica.now) steps ≡ None
        → EditIsTakenOn (own_basis replica.now) (received_of replica.now) steps }
{
    // What is kept is looked at, since its invariant says this.
    let _received = replica.state.received();
    yd_editing::law::own_edits_are_taken();
}

/// The update of an edit is grouped: it is the one grouped update of its operations and deletions.
/// The ids that a step removes are maximal spans, as those of an `IdSet` are.
pub fn edits_are_grouped(replica: &Replica)
    ensures { (steps : List Step) → Each IsStepInRange steps → Each MakesContent steps
        → refusal_of (own_basis replica.now) steps ≡ None
        → IsGrouped (update_of_edit (own_basis replica.now) steps) }
{
    // What is kept is looked at, since its invariant says this.
    let _received = replica.state.received();
    yd_editing::law::own_edits_are_taken();
    yd_editing::law::own_edits_are_valid();
}

/// An edit says less of nothing. So after it each list is what it was with what became held, each
/// put where the integration scan puts it, for every set of operations.
pub fn edits_grow(replica: &Replica)
    ensures { EditsGrow replica.now }
{
    // What is kept is looked at, since its invariant says this.
    let _received = replica.state.received();
    yd_editing::law::own_edits_are_taken();
}
