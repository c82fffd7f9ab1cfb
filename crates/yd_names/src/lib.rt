//! The names of the lists of a document, each with a number, and found in the time of a look-up.
//!
//! [`Names`] are seen as their list: the number of a name is its place. A name is found by a hash
//! of its code, and by a bisection where many share a slot of the hash. By [`ItemNames`] all names
//! of one parent are found so too, and the items that have lists, in the order of their ids, whatever
//! lies between them.
//! [`is_same_list`] and [`is_same_parent`] say when two names are one, and when two parents are. A
//! call that finds no memory changes nothing.
//!
//! ```rust
//! let mut names = Names::new(alloc);
//! names.push(list)?;
//! let number = names.number_of(&other);
//! ```
#![tactic(auto)]

mod codes;
mod coding;
mod crowds;
mod groups;
mod item_names;
mod items;
mod names;
mod order;
mod parents;
mod same;
mod slots;
mod sought;

pub use item_names::ItemNames;
pub use names::Names;
pub use same::{is_same_list, is_same_parent};
pub use yd_ops::NoMemory;
