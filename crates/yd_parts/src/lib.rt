//! Parts of bytes, plans of reading them, and any-values.
//!
//! A *part* is a byte, a number, a text or a byte string of lib0, with a place of its own. A
//! *plan* says what is read next for what was read so far; a grammar is one plan, and what it gives
//! and how it first fails is proved of all plans at once ([`law`]). Any-values are read by such a
//! plan, each fault at its own part, and what is written of one is read again.
//!
//! ```rust
//! let mut parts = Parts::new(Column::Whole, &[117, 1, 125, 5]);
//! let value = read_any(alloc, &mut parts)?;
//! assert!(rt; matches!(value, Any::List(_)) && parts.left() == 0);
//! ```
#![tactic(auto)]

mod any_reading;
mod any_writing;
mod count;
mod fault;
pub mod law;
mod parts;
mod tag;

pub use any_reading::read_any;
pub use any_writing::write_any;
pub use count::counted;
pub use fault::{Cause, Column, NoMemory, ReadError, Spot};
pub use parts::Parts;
