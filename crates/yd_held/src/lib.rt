//! What is held of what was received: each unit whose origins, item and unit before it are held.
//!
//! Taking an update in gives exactly the held set that `yd_meaning` defines, and tells what of it is
//! lost, however the operations came ([`Held::take`]). It keeps the clock that each client has
//! reached, and numbers the lists by their names ([`Held::names`]). What waits is noted by what it
//! lacks, and tried again when that is held. Text that comes a letter at a time can be joined, and
//! then takes one entry ([`Held::join`]). A call that finds no memory has changed nothing. What was
//! before a `take` is put back ([`Held::put_back`]), or kept for the next one ([`Held::keep`]).
//!
//! ```rust
//! let mut held = Held::new(alloc);
//! let taken = held.take(update)?;
//! held.keep(taken);
//! ```
#![tactic(auto)]

mod changing;
mod fault;
mod finding;
mod held;
mod holding;
mod noting;
mod numbering;
mod parts;
mod placing;
mod readiness;
mod telling;
mod trying;
mod twin;

pub use fault::NoMemory;
pub use held::{Held, Taken};
pub use noting::Lack;
pub use parts::{Before, Kept};
