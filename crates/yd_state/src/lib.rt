//! The state of a replica whose lists grow by the integration scan, in a store.
//!
//! It has what was received and is held, a store with just what is held, and what is deleted
//! ([`State`]). Each update that is taken lets the lists grow by the scans of what became held, for
//! every set of operations. Its document is told by the store: by its own lists, and what is deleted
//! by their order (`specs/State.antt`). Where the edit rules are kept, it is the document that the
//! received operations and deletions define ([`law`]). A `take` that finds no memory has changed
//! nothing.
//!
//! What became held goes into the store entry by entry, in the order in which it did; where memory
//! ends, all that was put in is taken out again (`specs/Placing.antt`). Where less is told of what
//! was held, the store tells it less last, which cannot fail (`specs/Telling.antt`). At the end what goes on where
//! something else ends is joined to it, so text that is typed letter by letter is one run.
//!
//! ```rust
//! let mut state = State::new(alloc);
//! let brings = state.take(update)?;
//! let units = state.list(&list);
//! ```
#![tactic(auto)]

mod back;
mod coming;
mod counting;
mod entry;
mod fault;
mod joining;
pub mod law;
mod lengths;
mod less;
mod listing;
mod naming;
mod novelty;
mod numbered;
mod placing;
mod receiving;
mod sets;
mod settling;
mod state;
mod twin;
mod waiting;

pub use fault::NoMemory;
pub use listing::{ListView, RunView};
pub use state::State;
