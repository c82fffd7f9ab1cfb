//! What taking in an update did.

use yd_entries::Entries;

/// What taking in an update did.
#[derive(Drop)]
pub enum Brought {
    /// All that it says was known.
    Nothing,
    /// It has new ids, and says less of none that was there.
    Added,
    /// It says less of an id that was there, or that came earlier in the update itself. These were
    /// the entries.
    Lowered(Entries),
}
