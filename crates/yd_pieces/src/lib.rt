//! A list that is kept in pieces, so that a change in its midst moves few elements.
//!
//! Contracts see a plain list and a number, room: how many pushes cannot fail. A call that finds no
//! memory leaves the list as it was and hands the element back.
//!
//! ```rust
//! let mut list = Pieces::new(alloc);
//! list.push(1)?;
//! list.insert(0, 7)?;
//! assert_eq!(rt; *list.get(1), 1);
//! ```
#![tactic(auto)]

mod cutting;
mod draining;
mod keeping;
mod pieces;
mod searching;
mod seeking;
mod walking;

pub use pieces::Pieces;
pub use searching::Test;
pub use walking::PiecesIter;
