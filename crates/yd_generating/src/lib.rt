//! Large inputs made from a number: three replicas that edit one text by draws, and pass replies on.
//!
//! [`generate`] makes what `yd_generator` defines, with replicas that take one another's replies as
//! bytes. It answers the numbers of the first replica behind all steps, and whether the three are
//! equal, which they are for every number of steps.
//!
//! ```rust
//! let found = generate(alloc, 5000)?;
//! assert!(rt; found.equal);
//! ```
#![tactic(auto)]

mod comparing;
mod counting;
mod editing;
mod fault;
mod generating;
mod passing;
mod turning;
mod writing;

pub use fault::GenerateFault;
pub use generating::{Generated, generate};
