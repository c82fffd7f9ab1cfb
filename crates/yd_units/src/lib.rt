//! The UTF-16 units of a text, and the text that they make.
//!
//! [`Units`] is seen as the list of its 16-bit units. A text survives the way there and back. Units
//! that were parted inside a pair show U+FFFD for each half that stands alone. A call that finds no
//! memory leaves its arguments as they were. The laws stand in [`law`].
//!
//! ```rust
//! let mut front = Units::from_text(alloc, "😀a")?;
//! assert_eq!(rt; (front.len(), front.unit(1)), (3, Some(0xde00)));
//! let back = front.split_off(1)?;
//! let mut out = Vec::new(alloc);
//! back.write_text(&mut out)?;
//! assert_eq!(rt; out, "\u{fffd}a".as_bytes());
//! ```
#![tactic(auto)]

mod fault;
mod half;
pub mod law;
mod spelling;
mod units;

pub use fault::NoMemory;
pub use units::Units;
