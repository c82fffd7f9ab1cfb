//! Grouped updates, built from the front.
//!
//! A [`Builder`] is pushed what structs have, in the order of writing and in pieces of any size. Each
//! [`Group`] is a run, or gone units with clocks in a row. It joins the one before where the two are
//! one run that was cut, or gone units with clocks in a row. So what a builder makes is the grouping
//! of all that it was pushed (`yd_grouping::law::builder_groups`). A gap between two groups of one
//! client becomes one skip.
//!
//! ```rust
//! let mut builder = Builder::new(alloc);
//! builder.push(Group::Run(run))?;
//! builder.push(Group::Gone(id, 3))?;
//! let update = builder.finish(deletes)?;
//! ```
#![tactic(auto)]

mod builder;
mod fault;
mod group;
mod growing;
mod putting;

pub use builder::Builder;
pub use fault::NoMemory;
pub use group::Group;
