//! Groups of units that an undo makes again as one run.
//!
//! A group has clocks in a row, stands in one list without a unit between, deleted ones counted in,
//! and is of one kind (`specs/Group.antt`). [`group_at`] finds the one that begins with a unit, and
//! what stands before it.
//!
//! ```rust
//! if let Some(group) = group_at(alloc, replica.list_around(&list, id), id, 8)? {
//!     let content = copied(alloc, &group.pieces)?;
//! }
//! ```
#![tactic(auto)]

mod finding;
mod last;

pub use finding::{Group, group_at};
pub use last::last_made;
