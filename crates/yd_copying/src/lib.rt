//! Units of several contents, copied into one content that can be made again.
//!
//! The units are of one kind. A half of a pair whose partner is not beside it becomes U+FFFD, so that
//! the content is valid ([`copied`]).
//!
//! ```rust
//! let content = copied(alloc, &[Piece { content: &first, offset: 2, len: 3 }])?;
//! ```
#![tactic(auto)]

mod copying;
mod mending;
mod pieces;
mod values;

pub use copying::copied;
pub use pieces::Piece;
pub use yd_ops::NoMemory;
