//! Shown values: what a reader of a document sees, as plain values that own all that they have.
//!
//! Each stands for a plain tree of `yd_any`, as any-values and JSON values do, and is made of such
//! ([`Shown::of_any`], [`Shown::of_json`]) or of shown values. It may nest deeper than these. What is
//! printed of it is what is printed of its tree, so all three kinds of values have one printing.
//!
//! ```rust
//! let mut list = ShownList::new(alloc);
//! list.push(Shown::of_json(alloc, &json)?)?;
//! print(&Shown::List(list), &mut out)?;
//! ```
#![tactic(auto)]

mod fault;
mod of_any;
mod of_json;
mod page;
mod plain;
mod printer;
mod printing;
mod shown;
mod writing;

pub use fault::NoMemory;
pub use printing::print;
pub use shown::{Shown, ShownElement, ShownFields, ShownList};
