//! Files: what the words name, what each file stands for, and several files read in their order.
//!
//! A [`File`] is a name and a [`Kind`], which says how the bytes under the name are spelled: one
//! update in V1 or V2, a log of updates, a state vector, or a script. Each file stands for a list of
//! updates, for a vector or for a text, or is refused by what is wrong first, too large, or missing.
//! [`read_files`] answers what several files stand for, in order, or the first file that is not
//! accepted, and why ([`law`]). [`take_files`] does the same, and hands each file to a
//! [`FileTaker`], which keeps of it what it wants. [`Taken`] hands updates on to an `UpdateTaker`.
//!
//! ```rust
//! let inputs = read_files(alloc, &mut library, &[File { kind: Kind::Log, name: "typed" }])?;
//! ```
#![tactic(auto)]

mod fault;
mod file;
mod inputs;
mod kind;
pub mod law;
mod loading;
mod reading;
mod taker;
mod taking;

pub use fault::{FileFault, LoadFault};
pub use file::{File, file_of};
pub use inputs::{Inputs, Others};
pub use kind::{Kind, prefix};
pub use loading::read_all;
pub use reading::{read_files, take_files};
pub use taker::{FileTaker, Taken};
pub use taking::take_file;
