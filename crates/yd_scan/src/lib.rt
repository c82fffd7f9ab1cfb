//! The integration scan over runs that are linked in an arena (YATA; Yjs 13, `integrate`).
//!
//! A new run goes into a list at the place where the scan of its first unit puts it, and its other
//! units stand directly behind one another, as their own scans would put them ([`law`]). So it is
//! for every list that has the left origins of its runs, whether it keeps the edit rules or not.
//! The scan looks at each run once, takes no memory, and remembers what it met by a number at each
//! place, its mark.
//!
//! ```rust
//! let behind = scan(&chains, list, &stretches, &index, &mut marks, &mut counter, &new, after);
//! ```
#![tactic(auto)]

mod index;
mod judging;
pub mod law;
mod scanning;
mod stretch;

pub use index::Finds;
pub use scanning::scan;
pub use stretch::Stretch;
