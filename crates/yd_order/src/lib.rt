//! The order of a list that the origins of its units give, for every table of origins.
//!
//! [`arrange`] takes runs, and [`arrange_stretches`] what the order sees of them. Both answer the
//! ids exactly as `origin_order` (yd_origins) defines it, whether the units keep the edit rules or
//! not. Where they keep them, the integration scan as it is defined gives the same list ([`law`]).
//! So a scan proposes an order, and if each unit stands there as its origins ask, it is the answer.
//! Otherwise a table over all pairs of units gives the order, in time and bytes with the square of
//! how many there are. Which order is proposed is said by no clause, and speed alone rests on it. A
//! call that finds no memory answers [`NoMemory`].
//!
//! ```rust
//! let order = arrange_stretches(alloc, &stretches)?;
//! ```
#![tactic(auto)]

mod arranging;
mod comparing;
mod counting;
mod fault;
mod filling;
mod heading;
pub mod law;
mod linking;
mod numbering;
mod rows;
mod runs;
mod scanning;
mod seating;
mod stretch;
mod turns;

pub use arranging::arrange_stretches;
pub use comparing::{Comparison, compare_stretches};
pub use fault::NoMemory;
pub use runs::arrange;
pub use stretch::Stretch;
