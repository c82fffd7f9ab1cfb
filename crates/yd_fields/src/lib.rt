//! Updates in fields, whatever the format: the plan that reads them, and how they are written.
//!
//! An update is spelled in *fields*, the same in each format: client, clock, info byte, name,
//! content. What is read next is one plan over fields, which `yd_reading` follows through any
//! [`FieldReader`]; [`write_update`] gives the fields of an update to any [`FieldWriter`]. The
//! fields of a valid update are those that the plan wants, and make it again ([`law`]). Which bytes
//! a field is, each format says in a crate of its own.
//!
//! ```rust
//! write_update(alloc, &update, &mut writer)?;
//! ```
#![tactic(auto)]

mod content_writing;
mod delete_writing;
mod info;
mod kinds;
pub mod law;
mod lent;
mod lent_writing;
mod list_writing;
mod reader;
mod struct_writing;
mod update_writing;
mod writer;

pub use delete_writing::write_deletes;
pub use info::{ContentKind, StructKind, has_key, has_left, has_right, kind_of_info};
pub use kinds::{TypeKind, kind_of_number};
pub use lent::{LentRun, LentStruct, LentText};
pub use lent_writing::write_lent;
pub use reader::FieldReader;
pub use update_writing::write_update;
pub use writer::FieldWriter;
pub use yd_parts::{Cause, Column, NoMemory, Parts, ReadError, Spot, read_any, write_any};
