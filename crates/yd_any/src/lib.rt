//! Any-values and JSON values: what they are, their texts, and the ways from one to the other.
//!
//! Each value stands for a plain tree, and every clause speaks of that tree. A call that makes a
//! JSON value tells a fault exactly where there is one, depth before numbers, and what it answers
//! is valid. The text of a JSON value is read as that value. A call that finds no memory leaves
//! what it was lent as it was, and drops what it was given.
//!
//! ```rust
//! let value = json_of_text(alloc, "{\"b\":1,\"a\":2,\"b\":3}")?;
//! assert_eq!(rt; text_of_json(alloc, &value)?.as_str(), "{\"a\":2,\"b\":3}");
//! ```
#![tactic(auto)]

mod any_validity;
mod any_value;
mod blob;
mod carried;
mod conversion;
mod data;
mod fault;
mod joining;
mod json_validity;
mod json_value;
pub mod law;
mod making;
mod printing;
mod reading;
mod same_any;
mod same_json;
mod splitting;
mod text;
mod writing;

pub use any_value::{Any, AnyList, AnyPairs};
pub use blob::Blob;
pub use conversion::{any_of_json, json_of_any};
pub use fault::{JsonFault, NoMemory};
pub use json_value::{Json, JsonFields, JsonList};
pub use printing::{print_any, text_of_json};
pub use reading::{json_of_text, json_of_value};
pub use same_any::is_same_any;
pub use same_json::is_same_json;
pub use text::Text;
