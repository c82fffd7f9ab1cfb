//! Where updates disagree: the smallest id on which two of them differ.
//!
//! Updates may differ on an id in content, where both are full, or in place, where neither is gone.
//! And one may spell a pair in full of which another one spells just one half deleted or gone.
//! [`disagree`] tells the smallest id of all these, and none where updates agree. It works by runs:
//! it sorts them by their first ids, and compares each next one with one other alone, the one that
//! ends last ([`law`]). [`differ_in_content`] and [`differ_in_place`] compare two runs, and
//! [`is_same_unit`] two units; these take no memory.
//!
//! ```rust
//! let found = disagree(alloc, &[first, second])?;
//! ```
#![tactic(auto)]

mod differing;
mod disagreeing;
mod fault;
pub mod law;
mod less;
mod parting;
mod same_unit;
mod spelled;
mod sweep;

pub use differing::{differ_in_content, differ_in_place};
pub use disagreeing::disagree;
pub use fault::NoMemory;
pub use same_unit::is_same_unit;
