//! Update format V1: files read exactly, and updates and state vectors written so that they are
//! read again.
//!
//! In V1 the fields of an update stand one after another, each in its parts ([`V1Reader`],
//! [`V1Writer`]). [`read_v1`] answers the update that a file stands for, or the first fault in it,
//! by cause and place; [`write_v1`] answers the bytes of an update, and they stand for it.
//! [`take_structs_v1`] reads as [`read_v1`] does, and hands each struct to a [`StructTaker`]. State
//! vectors are spelled in V1 too ([`read_vector`], [`write_vector`]). A log file is updates in V1
//! one behind the other ([`read_log`], [`write_log`]), and it can be read and written without
//! keeping its updates ([`take_log`], [`LogWriter`]). That all of them are exact is proved of every
//! file, every update and every vector ([`law`]).
//!
//! ```rust
//! let update = read_v1(alloc, &[0, 0])?;
//! assert!(rt; update.blocks.as_slice().len() == 0);
//! ```
#![tactic(auto)]

pub mod law;
mod log_reading;
mod log_writer;
mod log_writing;
mod logs;
mod reader;
mod reading;
mod vector_reading;
mod vector_writing;
mod writer;
mod writing;

pub use log_reading::{read_log, take_log};
pub use log_writer::LogWriter;
pub use log_writing::write_log;
pub use logs::{UpdateList, UpdateTaker};
pub use reader::V1Reader;
pub use reading::{read_v1, take_structs_v1};
pub use vector_reading::read_vector;
pub use vector_writing::write_vector;
pub use writer::V1Writer;
pub use writing::write_v1;
pub use yd_parts::{Cause, Column, NoMemory, ReadError, Spot};
pub use yd_reading::StructTaker;
