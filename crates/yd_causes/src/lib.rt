//! Why a line of a script is refused, for whoever plays the line and whoever tells it.
//!
//! ```rust
//! let cause = LineCause::NoTarget(1);
//! ```
#![tactic(auto)]

mod cause;

pub use cause::LineCause;
