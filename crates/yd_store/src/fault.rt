//! What a call without memory answers.

use yd_ops::Run;

/// A run found no memory, and this is the run.
#[derive(Drop)]
pub struct Unplaced(pub Run);
