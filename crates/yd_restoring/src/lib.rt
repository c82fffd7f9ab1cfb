//! What is shown after an undo, after an edit and its undo, and after an undo that is done again:
//! laws alone.
#![tactic(auto)]

pub mod law;
