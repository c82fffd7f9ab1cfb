//! How a run ends: what it made is written to out, and why it stopped is told on err, with a status.
//!
//! [`deliver`] is the one place that writes to out. [`report`] writes one line for each reason to stop,
//! and answers its status. A line that was written to its end has its own status. Where memory ends
//! within it, the status says that instead; a fault of err changes no status.
//!
//! ```rust
//! let ending = deliver(Err(Stop::Usage), &mut out);
//! assert_eq!(rt; report(ending, &mut err), 2);
//! ```
#![tactic(auto)]

mod delivery;
mod ending;
mod message;
mod refusal;
mod script;
mod status;
mod stop;
mod writing;

pub use delivery::deliver;
pub use ending::report;
pub use refusal::Refusal;
pub use stop::Stop;
pub use writing::write_out;
