//! Chains of places: linked lists, several in one arena. All reasoning on links ends here.
//!
//! A place is a number from 0 on, for an item that lies elsewhere, and it is in one chain at most.
//! Contracts see how many places there are, and of each chain the list of its places. Putting a place
//! into a chain and taking it out take no memory.
//!
//! ```rust
//! let mut chains = Chains::new(alloc);
//! let chain = chains.add_chain()?;
//! let place = chains.add_place()?;
//! chains.insert(chain, None, place);
//! assert_eq!(rt; chains.first(chain), Some(place));
//! ```
#![tactic(auto)]

mod chains;
mod linked;
mod linking;
mod links;
mod named;

pub use chains::Chains;
