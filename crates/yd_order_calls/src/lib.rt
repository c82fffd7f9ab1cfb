//! Each public call of the order of a list once, on small tables of origins.
#![tactic(auto)]

#[cfg(test)]
mod runs;
#[cfg(test)]
mod samples;
#[cfg(test)]
mod stretches;
