//! Updates without a document: merging them, cutting one, and how far some reach.
//!
//! [`merge`] makes the one grouped update that says what many say, and [`cut`] what one says from a
//! vector on. Where no two structs have a unit with one id, what they have is lent, put in the order
//! of writing and written. Else each update is taken into a `Received`, and the entries are written
//! out by runs. [`write_cut`] writes that of what was received before. All that is written is pushed
//! into a `yd_building::Builder`, whose update is the grouping of it. [`vector_of`] tells of each
//! client the smallest clock that an update does not have, and [`vector_of_all`] that of a merge,
//! without merging. [`are_apart`] tells that no two structs have a unit with one id. [`group_of`]
//! copies what an entry of a `Received` has. [`join_runs`] joins the runs of one update that go on with
//! one another, in its own order.
//!
//! ```rust
//! let merged = merge(alloc, &[first, second])?;
//! let reached = vector_of(alloc, &merged)?;
//! let news = cut(alloc, &third, &reached)?;
//! ```
#![tactic(auto)]

mod cutting;
mod fault;
mod joining;
mod lending;
mod lent_cutting;
mod merging;
mod naming;
mod parts;
mod reaching;
mod values;
mod writing;

pub use cutting::{cut, write_cut};
pub use fault::NoMemory;
pub use joining::join_runs;
pub use lending::are_apart;
pub use merging::merge;
pub use parts::group_of;
pub use reaching::{vector_of, vector_of_all};
