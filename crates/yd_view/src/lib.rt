//! What a reader of a document sees.
//!
//! [`text`] gives the text of a list: its live text units in order. Its contract speaks of the
//! replica's own document, which is the one that the received operations and deletions define
//! (`yd_doc::law`).
//!
//! ```rust
//! let units = text(alloc, &replica, &list)?;
//! ```
#![tactic(auto)]

mod fault;
mod halves;
mod reading;

pub use fault::NoMemory;
pub use halves::{Halves, Seen};
pub use reading::text;
