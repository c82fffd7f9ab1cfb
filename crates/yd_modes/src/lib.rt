//! What a parent of a document shows: as text, delta, list, map or tree, with the types that lie in
//! it.
//!
//! [`show`] answers one value, just as `yd_shown` defines it of the replica's own document. Units
//! are gathered in one pass over each list, with U+FFFD for a half whose partner is not beside it.
//! Types inside one another are shown to a depth of 100, and no call nests deeper. Nothing is
//! changed, and where a call finds no memory there is no value.
//!
//! ```rust
//! let value = show(alloc, &replica, &Parent::Root(name), Mode::Delta)?;
//! print(&value, &mut line)?;
//! ```
#![tactic(auto)]

mod fault;
mod gathering;
mod inserts;
mod listed;
mod lists;
mod marks;
mod mode;
mod nesting;
mod objects;
mod piece;
mod plain;
mod showing;
mod taking;
mod texts;
mod values;

pub use fault::NoMemory;
pub use mode::Mode;
pub use piece::Piece;
pub use showing::{delta, show};
