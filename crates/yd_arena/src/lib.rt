//! The arena: runs at places, linked in lists, and found by the ids of their units.
//!
//! A client's runs fill its clocks from 0 to its next one, so an id is found by a bisection, and
//! just where its clock is below that. A new run goes where the integration scan of its first unit
//! puts it. Its list has then grown by the scans of all its units, if it has the left origins of
//! its runs; it need not keep the edit rules. A cut changes no unit and no order ([`law`]), and the
//! last run can be joined to the one that it goes on with, which undoes a cut. A call that finds no
//! memory leaves all units as they were.
//!
//! Beside the runs each place has a [`Mark`]: whether the run's units are deleted, and whether they
//! count in lengths; and each list has the number of its live units ([`Marks`]). A deletion goes from
//! run to run, takes no memory and touches no link. What is marked is told by ids, so a cut changes
//! nothing.
//!
//! ```rust
//! let mut arena = Arena::new(alloc);
//! let list = arena.add_list()?;
//! arena.reserve(Client(1), 1)?;
//! let place = arena.add_run(list, None, stretch);
//! assert_eq!(rt; arena.lists().first(list), Some(place));
//! ```
#![tactic(auto)]

mod arena;
mod beside;
mod counting;
mod growing;
mod joining;
pub mod law;
mod lists;
mod mark;
mod marks;

pub use arena::{Arena, Found};
pub use beside::Beside;
pub use lists::Lists;
pub use mark::Mark;
pub use marks::Marks;
