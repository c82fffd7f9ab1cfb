//! Who is there: the table of clients, their clocks and their states, kept in order.
//!
//! A table takes the entries that others send, and answers those that were news, so that they can
//! be passed on (y-protocols, awareness). States end with time, with the session that they came
//! from, or one by one; the own state is set, and set again before others take it for old. What a
//! table then has is defined in `yd_sync`, with its laws; here it is kept. A call that finds no
//! memory leaves the table as it was.
//!
//! ```rust
//! let mut table = Awareness::new(alloc, Some(Client(1)))?;
//! table.set_local(Some(Text::copy_of(alloc, "{}")?), 0)?;
//! assert_eq!(rt; table.get(Client(1)), (1, Some("{}")));
//! ```
#![tactic(auto)]

mod awareness;
mod ending;
mod fault;
pub mod law;
mod own;
mod rows;
mod taking;
mod telling;
mod verdict;

pub use awareness::Awareness;
pub use fault::AwareFault;
pub use yd_sync::NoMemory;
