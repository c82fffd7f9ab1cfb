//! Places in a replica's lists that stay while others edit.
//!
//! A [`Position`] is made at an index of a list ([`position_at`]). Later it has an index again
//! ([`index_of`]), whatever was inserted and deleted meanwhile (Yjs 13, relative positions). Its bytes
//! are those of `yd_position`.
//!
//! ```rust
//! let position = position_at(alloc, &replica, &list, 1, 0)?;
//! let found = index_of(&replica, &position)?;
//! ```
#![tactic(auto)]

mod counting;
mod indexing;
mod pointing;

pub use indexing::index_of;
pub use pointing::position_at;
pub use yd_doc::{EditFault, NoMemory};
pub use yd_position::{Position, Target};
