//! Scripts played: each line is one edit of a replica, or keeps a place in it (own).
//!
//! [`play`] plays the lines of a script in their order, and answers the updates of their edits, or the
//! first line that is refused and why. The replica has then taken what the lines before it made.
//!
//! ```rust
//! let updates = play(alloc, &mut replica, "[\"insert\",\"t\",0,\"Hi\"]\n")?;
//! ```
#![tactic(auto)]

mod at_marks;
mod carrying;
mod desk;
mod fault;
pub mod law;
mod leading;
mod lines;
mod playing;
mod undoing;

pub use fault::PlayFault;
pub use playing::play;
