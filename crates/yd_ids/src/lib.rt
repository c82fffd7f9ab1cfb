//! State vectors and delete sets: the clock that each client has reached, and finite sets of ids.
//!
//! Joining is maximum and union, so the order of joins and repeats do not matter ([`law`]).
//! Clients, clocks and the ends of spans are below 2^53: each call requires it of what it takes and
//! keeps it in what it gives. A call that finds no memory leaves the value as it was.
//!
//! ```rust
//! let mut reached = Vector::new(alloc);
//! reached.raise(Client(1), 3)?;
//! assert_eq!(rt; reached.get(Client(1)), 3);
//! ```
#![tactic(auto)]

mod fault;
mod gathering;
mod id;
mod inserting;
pub mod law;
mod looking;
mod set;
mod span;
mod uniting;
mod vector;

pub use fault::NoMemory;
pub use id::{Client, Id, Span, is_same, is_smaller};
pub use set::{IdSet, SpanIter};
pub use vector::{Vector, VectorIter};
