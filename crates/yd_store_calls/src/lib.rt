//! Each public call of the store once: lists in pieces, chains, the index, lists of runs, the arena.
//!
//! What these crates promise is proved there. Here their calls are seen to answer where memory is
//! there, on a few elements each.
#![tactic(auto)]

#[cfg(test)]
mod arena;
#[cfg(test)]
mod chains;
#[cfg(test)]
mod index;
#[cfg(test)]
mod lists;
#[cfg(test)]
mod pieces;
#[cfg(test)]
mod samples;
