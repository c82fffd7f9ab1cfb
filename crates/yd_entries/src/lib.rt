//! Entries: the units of runs that were taken, since their ids were new, and what is told of them.
//!
//! The entries of a list stand in the order of writing, so an id is found by bisection ([`entry_of`],
//! [`entry_at`]). [`add_run`] adds the units of a run with new ids, and keeps a copy of the run; a half
//! whose partner does not come with it is U+FFFD. [`lower`] makes what is there deleted or gone: an
//! entry is split where the ids begin and end, and a pair that this parts is U+FFFD twice. No unit of
//! a deleted or gone run is walked, and one run may have as many as there are clocks. [`join`] makes
//! one entry of two, where a text goes on, and no unit changes.
//!
//! ```rust
//! let adds = add_run(alloc, &mut runs, &mut taken, run, false)?;
//! let lowers = lower(alloc, &mut runs, &mut taken, &mut before, run.id, run.len(), level_from(false))?;
//! let joins = join(&mut runs, &mut taken, at);
//! ```
#![tactic(auto)]

mod entries;
mod entry;
mod fault;
mod gaps;
mod joining;
mod lookup;
mod lowering;
mod pieces;
mod place;
mod splitting;
mod taking;

pub use entries::{Entries, EntryIter};
pub use entry::Entry;
pub use fault::NoMemory;
pub use joining::join;
pub use lookup::{entry_at, entry_of};
pub use lowering::{level_from, lower};
pub use place::Place;
pub use taking::add_run;
