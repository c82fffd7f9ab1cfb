//! Updates read from fields, whatever the format: by one plan, up to its first fault.
//!
//! [`read_update`] follows the plan of `yd_fields` through any `FieldReader`: what is read is a
//! valid update or the plan's first fault. What a format judges as each other one does stands here
//! too: the flag of a parent ([`flag_of`]), a range ([`range_of`]), the value of a JSON text
//! ([`value_of_text`]). Of a format that reads its files exactly, an answer says what the whole file
//! is, in both directions (`ReadsWhole`).
//!
//! ```rust
//! let update = read_update(alloc, &mut reader)?;
//! ```
//!
//! [`take_update`] reads in the same way and keeps no struct: it hands each to a [`StructTaker`].
#![tactic(auto)]

mod block_reading;
mod content_reading;
mod delete_reading;
mod json_making;
mod judging;
mod lent_reading;
mod list_reading;
mod struct_reading;
mod taking;
mod texts;
mod update_reading;

pub use content_reading::read_any_field;
pub use json_making::value_of_text;
pub use judging::{flag_of, range_of};
pub use taking::{StructTaker, take_update};
pub use update_reading::read_update;
