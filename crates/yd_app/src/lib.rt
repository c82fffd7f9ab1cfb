//! The program: what the words ask for, what is written, and how it ends.
//!
//! [`run`] is the whole program over the traits of the outside. Its contract says which status
//! comes when, what stands on `out` and on `err` then, and that what is written is what the updates
//! of the files define, whoever made them and however their bytes spell them. So files with the
//! same operations and deletions, in any order, repeated or in another format, show the same, where
//! no two operations with one id differ ([`law`]).
//!
//! ```rust
//! let status = run(rt.alloc(), &words, &mut library, &mut out, &mut err, &mut board);
//! assert_eq!(rt; (status, out.as_slice()), (0, b"abc\n".as_slice()));
//! ```
#![tactic(auto)]

mod commands;
mod fault;
mod format;
pub mod law;
mod program;

pub use program::run;
pub use yd_asking::{NoMemory, Word};
pub use yd_ending::write_out;
