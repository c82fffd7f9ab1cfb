//! What words ask for: a command, and the files that it is of.
//!
//! [`request_of`] reads words by a table with a row for each command. Words ask for one command of one
//! list of files at most, and words of no form end in the usage line.
//!
//! ```rust
//! let request = request_of(rt.alloc(), &words)?;
//! assert_eq!(rt; request.files.len(), 2);
//! ```
#![tactic(auto)]

mod command;
mod fault;
mod format;
mod mode;
mod number;
mod request;
mod word;

pub use command::{Command, Wanted};
pub use fault::NoMemory;
pub use format::Format;
pub use request::{Request, request_of};
pub use word::Word;
