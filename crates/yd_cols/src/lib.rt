//! Columns: lists of numbers, bytes or strings in runs, as update format V2 keeps its fields.
//!
//! Four kinds ([`UintReader`], [`IntDiffReader`], [`ByteReader`], [`StringReader`], and a writer of
//! each): numbers, numbers by their differences, bytes, and strings by one text that joins them. A
//! reader gives one value at a time and takes any cutting into runs; a fault names the place of the
//! run, and is answered again. A writer makes runs that could not be longer. That a reader gives
//! just the values that the bytes stand for, and that what is written stands for its values, is
//! proved of all bytes and all values ([`law`]).
//!
//! ```rust
//! let mut column = UintWriter::new(alloc);
//! column.push(3)?;
//! column.push(3)?;
//! column.push(3)?;
//! let bytes = column.finish()?;
//! assert_eq!(rt; bytes.as_slice(), &[0x43, 0x01]);
//! assert_eq!(rt; UintReader::new(&bytes).next(), Ok(3));
//! ```
#![tactic(auto)]

mod byte_reader;
mod byte_writer;
mod diff_reader;
mod diff_writer;
mod fault;
pub mod law;
mod run;
mod run_reading;
mod run_writing;
mod runs;
mod string_cutting;
mod string_reader;
mod string_writer;
mod uint_reader;
mod uint_writer;

pub use byte_reader::ByteReader;
pub use byte_writer::ByteWriter;
pub use diff_reader::IntDiffReader;
pub use diff_writer::IntDiffWriter;
pub use fault::{ColCause, ColFault};
pub use string_reader::StringReader;
pub use string_writer::StringWriter;
pub use uint_reader::UintReader;
pub use uint_writer::UintWriter;
pub use yd_num::NoMemory;
