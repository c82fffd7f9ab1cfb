//! Relative positions: what a cursor holds on to, and its bytes.
//!
//! A [`Position`] points at a unit, at a root's list or at the list of a nested type, and so stays where
//! it is while others edit (Yjs 13, relative positions). [`read_position`] answers the one position
//! that bytes stand for, or their first deviation; [`write_position`] answers bytes that stand for the
//! position again ([`law`]).
//!
//! ```rust
//! let position = read_position(alloc, &[0, 1, 1, 0])?;
//! let bytes = write_position(alloc, &position)?;
//! ```
#![tactic(auto)]

mod fault;
pub mod law;
mod position;
mod reading;
mod targets;
mod writing;

pub use fault::{NoMemory, PositionFault};
pub use position::{Position, Target};
pub use reading::read_position;
pub use writing::write_position;
pub use yd_num::NumFault;
