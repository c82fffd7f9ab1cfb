//! Edits of what a replica holds: when one is refused, and the update that it makes.
//!
//! An edit is a list of steps, each of which makes units behind a unit of a list or removes ids. What
//! is made and what is refused is a function of the state before (`yd_editing`): [`Basis::refusal`]
//! gives the first refusal of the steps, and [`Basis::update`] the one update of an edit that is not
//! refused. Nothing here changes the state; whoever carries the edit out takes the update in. The list
//! that a unit stands in is [`list_of`], and the type that it is [`kind_of`].
//!
//! ```rust
//! let basis = Basis { state: &state, client };
//! assert!(rt; basis.refusal(&steps).is_none());
//! let update = basis.update(alloc, steps)?;
//! ```
#![tactic(auto)]

mod basis;
mod fault;
mod finding;
mod gathering;
mod kind;
mod kinds;
mod lists;
mod refusing;
mod rights;
mod step;
mod structs;
mod updating;
mod waiting;

pub use basis::Basis;
pub use fault::{EditFault, NoMemory};
pub use kind::kind_of;
pub use lists::list_of;
pub use step::{Step, StepList};
