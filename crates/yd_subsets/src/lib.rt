//! Parts of sets of ids: what another set lacks, and what is below a state vector.
//!
//! A part of a set is a set again, of those of its ids that pass a test (`part_that`). There is one
//! such set ([`law`]), whatever the spans of which it was made.
//!
//! ```rust
//! let lacking = difference(alloc, &deleted, &noted)?;
//! let held = part_below(alloc, &inserted, &vector)?;
//! ```
#![tactic(auto)]

mod below;
pub mod law;
mod parting;

pub use below::{part_below, span_below};
pub use parting::difference;
pub use yd_ids::NoMemory;
