//! Which operation breaks the edit rules, if one does.
//!
//! An edit puts a unit between two neighbours of a list as its maker saw it. Whether operations
//! were made so can be told of what is held: the left and the right origin of each are of one list,
//! in this order, and nothing that its maker had stands between them (`MeetsRules`, yd_meaning).
//! The smallest id of an operation that breaks this is a function of what is held (`dishonest_of`),
//! and there is none exactly where what is held is honest ([`law`]). What a maker had is the past
//! of an operation: [`pasts_of`] makes a vector of it for each entry, and [`is_past`] tells by
//! these. [`dishonest`] puts each list in order and judges its units by both.
//!
//! ```rust
//! if let Some(id) = dishonest(alloc, held)? {
//!     // The operation with this id was not put where its maker saw it.
//! }
//! ```
#![tactic(auto)]

mod ends;
mod fault;
mod judging;
pub mod law;
mod needs;
mod origins;
mod pasts;
mod places;
mod smallest;

pub use fault::NoMemory;
pub use pasts::{is_past, pasts_of};
pub use smallest::dishonest;
