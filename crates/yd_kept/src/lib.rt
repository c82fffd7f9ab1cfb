//! A store whose lists have names: runs that are held go into it one by one, each into the list of
//! its operations.
//!
//! A run goes into the list of its left origin, else of its right one, else into the one that it
//! carries, which is made where its name is new. Where the lists of a store are filled with what
//! stands of held operations, they are so after each call, and have grown by the integration scan.
//! That is promised of all held operations, whether they keep the edit rules or not, and no link
//! between runs is seen in it (`specs/Kept.antt`). A call that finds no memory changes no unit.
//!
//! What a list has while runs come stands in `specs/Placing.antt`, all lists by their names in
//! `specs/Filling.antt`, how a store goes back in `specs/Back.antt`, and the document that a filled
//! store tells in `specs/Telling.antt`. The laws are contracts of empty functions: of one list in
//! [`one_list`], of all in [`law`].
//!
//! ```rust
//! let mut kept = Kept::new(alloc);
//! kept.hold(run)?;
//! kept.part_each(&ids)?;
//! kept.mark_each(&ids);
//! let list = kept.number_of(&name);
//! ```
#![tactic(auto)]

mod changing;
mod holding;
mod kept;
pub mod law;
mod lowering;
mod marking;
pub mod one_list;
mod placing;

pub use kept::Kept;
pub use yd_store::{Level, Torn, Unplaced};
