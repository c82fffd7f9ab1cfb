//! What is done in a case.

/// An id, as its client and its clock.
pub type At = (u64, u64);

/// A change of a store. One that needs an id which is not held yet waits for it.
#[derive(Clone, Copy)]
pub enum Step {
    /// A text goes into a list: its first id, its left and its right origin.
    Put(usize, At, Option<At>, Option<At>, &'static str),
    /// So many units of which only their neighbours are known: their first id, and their left origin.
    Deleted(At, Option<At>, u64),
    /// So many units of which only the ids are known, from this one on.
    Gone(At, u64),
    /// A text whose units are lost, from this id on.
    Lost(At, &'static str),
    /// A text without origins goes into the first list, in room that is taken before.
    Add(At, &'static str),
    /// A run begins with this id.
    Split(At),
    /// So many units are deleted, from this id on.
    Delete(At, u64),
    /// The same, where runs are cut first and then marked.
    Mark(At, u64),
    /// So many units are spelled deleted, from this id on.
    Lower(At, u64),
    /// So many units, which are in no list, are told no more.
    EmptyLost(At, u64),
    /// The client's units from this id on are taken out again.
    Back(At),
    /// The last run is joined to the one before it in its list, if both can be one.
    Join,
}

/// Changes in the order in which they come, and what is asked then.
#[derive(Clone, Copy)]
pub struct Case {
    /// What it shows.
    pub name: &'static str,
    /// The changes.
    pub steps: &'static [Step],
    /// The ids of which the store is asked.
    pub ids: &'static [At],
}
