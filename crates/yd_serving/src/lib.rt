//! The loops of a server and of a client over a network.
//!
//! [`serve`] takes so many events and carries out what a hub orders, with all that follows sends
//! that fail; [`sync`] brings a peer in step with a server. Their contracts say which events were
//! taken and what the network was told, for whatever sends fail, and how it ended. [`serve_update`]
//! and [`sync_update`] begin with an update, and answer all that there is at the end.
//!
//! ```rust
//! let reply = serve_update(alloc, &update, &mut board, "127.0.0.1:1234", 9)?;
//! ```
#![tactic(auto)]

mod carrying;
mod fault;
mod hearing;
pub mod law;
mod naming;
mod serving;
mod settling;
mod syncing;
mod updates;

pub use carrying::carry;
pub use fault::{NoMemory, ServeFault, SyncFault};
pub use naming::{name_of_cause, name_of_fault};
pub use serving::serve;
pub use settling::settle;
pub use syncing::sync;
pub use updates::{serve_update, sync_update};
