//! Scripts: which edits their lines ask for (own).
//!
//! A script is a text with a line for each edit ([`read_script`] reads its file). A line is a JSON
//! array: a word and what goes with it, mostly a target first ([`Line`]). [`Lines`] gives the lines
//! that are not empty, in order and with their numbers, and [`read_line`] what a line asks for, or
//! that it is none.
//!
//! ```rust
//! let mut lines = Lines::of("[\"insert\",\"t\",0,\"Hi\"]\n");
//! let first = lines.next().unwrap();
//! let line = read_line(alloc, first.text)?;
//! ```
#![tactic(auto)]

mod arguments;
mod fault;
mod file;
mod given;
mod kinds;
mod line;
mod lines;
mod places;
mod reading;
mod target;
mod targets;

pub use fault::LineFault;
pub use file::read_script;
pub use line::{Change, Line, Place};
pub use lines::{Lines, NumberedLine};
pub use reading::read_line;
pub use target::{Target, TargetStep};
