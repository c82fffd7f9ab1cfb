//! Update format V2: files read exactly, and updates written so that they are read again.
//!
//! In V2 the fields of an update stand in nine columns, each type in its own, and in a rest behind
//! them ([`V2Reader`], [`V2Writer`]). Structs, deletions and blocks are those of `yd_fields`:
//! nothing of them is said or proved a second time. [`read_v2`] answers the update that a file
//! stands for, or the first fault in it, by cause, column and place; [`write_v2`] answers the bytes
//! of an update, and they stand for it. That both are exact is proved of every file and every
//! update ([`law`]).
//!
//! ```rust
//! let update = read_v2(alloc, &[0, 0, 0, 0, 0, 0, 1, 0, 0, 0, 0, 0, 0])?;
//! assert!(rt; update.blocks.as_slice().len() == 0);
//! ```
#![tactic(auto)]

mod column;
mod head;
mod json_making;
mod known;
pub mod law;
mod reader;
mod reading;
mod writer;
mod writing;

pub use reader::V2Reader;
pub use reading::read_v2;
pub use writer::V2Writer;
pub use writing::write_v2;
pub use yd_parts::{Cause, Column, NoMemory, ReadError, Spot};
