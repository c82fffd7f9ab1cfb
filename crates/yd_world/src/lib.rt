//! The outside: where files come from, where bytes go, and the network, each as a trait.
//!
//! A trait says what its object tells of itself (the bytes under a name, the bytes it took, the
//! events to come), and it has a count of faults: a call answers [`Failed`] only where the count
//! rose. The objects in memory tell everything and fail where they are told to. The real ones are
//! thin, tell nothing and count each error: they are the trusted edge.
//!
//! ```rust
//! let mut sink = MemorySink::new(rt.alloc());
//! sink.fail_after(1);
//! assert_eq!(rt; sink.write(b"abc")?, 1);
//! assert_eq!(rt; sink.write(b"bc"), Err(Outage::Failed));
//! assert_eq!(rt; sink.as_slice(), b"a".as_slice());
//! ```
#![tactic(auto)]

mod blob;
mod board;
mod event;
mod fault;
mod file_library;
mod library;
mod memory_library;
mod memory_sink;
mod plan;
mod script_board;
mod sink;
mod std_sink;

pub use blob::Blob8;
pub use board::{Sent, Switchboard, Way};
pub use event::{Event, Session, What};
pub use fault::{Failed, NoMemory, Outage};
pub use file_library::FileLibrary;
pub use library::Library;
pub use memory_library::MemoryLibrary;
pub use memory_sink::MemorySink;
pub use script_board::ScriptBoard;
pub use sink::Sink;
pub use std_sink::StdSink;
