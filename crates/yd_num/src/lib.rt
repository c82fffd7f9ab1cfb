//! Numbers, texts and byte strings as lib0 writes them, read and written one field after the other.
//!
//! Each reading call of a [`Cursor`] reads the field at the front of what is left, exactly by the
//! grammar in `specs/`, and takes no memory. A fault carries the place of the field's first byte
//! and leaves the cursor as it was. Each push of [`Bytes`] writes one whole field in the fewest
//! bytes, or finds no memory and leaves what was written before.
//!
//! ```rust
//! let mut cursor = Cursor::new(&[0xac, 0x02, 0x03, 0x61, 0x62, 0x63]);
//! assert_eq!(rt; cursor.unsigned()?, 300);
//! assert_eq!(rt; cursor.text()?, "abc");
//!
//! let mut bytes = Bytes::new(alloc);
//! bytes.push_unsigned(300)?;
//! assert_eq!(rt; bytes.as_slice(), &[0xac, 0x02]);
//! ```
#![tactic(auto)]

mod bytes;
mod cursor;
mod fault;
mod field;
mod groups;
pub mod law;
mod signed;
mod writing;

pub use bytes::Bytes;
pub use cursor::Cursor;
pub use fault::{NoMemory, NumFault};
pub use signed::Signed;
