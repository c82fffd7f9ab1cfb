//! The cores of a server and of a client that share a document: pure machines over events.
//!
//! There are definitions and laws, over messages lost, repeated and in any order. What a hub is after
//! an event and what it orders (`specs/Hub.antt`), and the same of a peer (`specs/Peer.antt`); what
//! becomes of sends that fail (`specs/Carrying.antt`); and the loops of both (`specs/Serving.antt`,
//! `specs/Syncing.antt`). Each law is the contract of an empty function ([`law`]), and [`example`]
//! has small runs that the checker computes. Open sessions ([`Sessions`]) and what is to be done
//! ([`ActionList`]) have their values, and `yd_machines` carries out events.
//!
//! ```rust
//! law::hub_receives();
//! ```
#![tactic(auto)]

mod action;
pub mod example;
mod fault;
pub mod law;
mod sessions;

pub use action::{Action, ActionList, CloseCause};
pub use fault::NoMemory;
pub use sessions::Sessions;
