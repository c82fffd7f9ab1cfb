//! The lists of what is held, as the order of a list sees them: by the stretches of their units.
//!
//! A list has a number, and each entry that stands is in the list with one ([`yd_held::Held`]). So
//! one pass over what was taken gathers the stretches of all lists, in the order of writing
//! ([`gathered`]), and the rows of a list are those of its stretches (`ListStretchLemmas`).
//!
//! ```rust
//! let lists = gathered(alloc, held.received().entries(), &marks)?;
//! let order = arrange_stretches(alloc, &lists[0])?;
//! ```
#![tactic(auto)]

mod fault;
mod gathering;

pub use fault::NoMemory;
pub use gathering::gathered;
