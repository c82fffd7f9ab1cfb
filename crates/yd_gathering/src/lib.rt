//! Updates that are taken one after another, and gathered into fewer that say the same.
//!
//! A [`Gatherer`] is a [`yd_v1::UpdateTaker`]. It keeps no update in V1. While one is read, a
//! struct that begins where the one before it ends, as a keystroke does, goes into the same block,
//! and runs that join become one. So a log that one client typed is one block, and a text that was
//! typed in a row is one run. Where many structs begin anew, as in a log whose updates were mixed,
//! the updates that follow are put off as bytes, and gathered at the end in the order of their ids.
//! What is received of the updates that it hands out at the end is just what is received of those
//! that it took, whatever they are (`StandsAs`).
//!
//! ```rust
//! let mut gatherer = Gatherer::new(alloc);
//! take_log(alloc, bytes, &mut gatherer)?;
//! let updates = gatherer.finish()?;
//! ```
#![tactic(auto)]

mod blocks;
mod first;
mod gatherer;
mod growing;
mod late;
mod row;
mod settling;

pub use gatherer::Gatherer;
