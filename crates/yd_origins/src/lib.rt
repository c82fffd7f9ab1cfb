//! The order of a list that the origins of its operations give, and the law that the integration
//! scan puts each operation where this order has it, in whichever arrangement they come.
//!
//! There are definitions and laws, and no code: whoever places, sorts or judges operations above
//! cites `specs/`. Each law is the contract of an empty function ([`law`]), and [`example`] has
//! small tables that the checker computes.
//!
//! ```rust
//! law::scan_keeps_order();
//! ```
#![tactic(auto)]

pub mod example;
pub mod law;
