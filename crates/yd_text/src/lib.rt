//! Edits of a text, a list or a map: at an index, or under a key.
//!
//! An index counts live counted units, so UTF-16 units of text, and each embed as one. Each call is
//! one edit of the replica: it makes one update, which the replica takes, or it is refused and the
//! replica is as before. What is seen afterwards stands in [`law`].
//!
//! ```rust
//! let update = insert(alloc, &mut replica, &list, 0, "Hello")?;
//! let update = delete(alloc, &mut replica, &list, 1, 3)?;
//! let update = map_set(alloc, &mut replica, &parent, &key, content)?;
//! ```
#![tactic(auto)]

mod deleting;
mod formatting;
mod inserting;
mod last;
pub mod law;
mod lists;
mod maps;
mod marks;
mod neighbours;
mod placing;
mod ranges;
mod refusing;

pub use deleting::delete;
pub use formatting::format;
pub use inserting::{embed, insert, insert_content};
pub use lists::{child_insert, list_insert};
pub use maps::{map_remove, map_set, value_in};
pub use yd_doc::EditFault;
