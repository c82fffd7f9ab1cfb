//! What is noted of a run beside its ids and origins.

ghost use Rattle.std.specs.Prelude.{◌≡◌, ◌≤◌};
ghost use Rattle.yd_arena.specs.Marks.{live_of as live_units};

/// What is noted of the units of a run.
#[derive(Clone, Copy, Debug)]
pub struct Mark {
    /// Whether they are deleted.
    pub deleted: bool,
    /// Whether they count in the length of their list, as long as they are not deleted.
    pub counted: bool,
}

/// How many of so many units are live.
pub fn live_of(mark: Mark, len: u64) -> u64
    ensures live { result ≡ live_units mark len }
    ensures bound { result ≤ len }
{
    if mark.deleted {
        return 0;
    }
    if mark.counted { len } else { 0 }
}
