//! How much is told of units that are told less, over a plain vector.

ghost use Rattle.std.specs.Prelude.{◌≡◌, ◌<◌, map, length, slice_set, vec_capacity};
ghost use Rattle.yd_store.specs.Contents.{told, run_at};
ghost use Rattle.yd_store.specs.Lowering.{told_down};

use yd_ops::{Content, Run};

/// How much is told of units that are told less.
#[derive(Clone, Copy, Debug)]
pub enum Level {
    /// Their ids alone.
    Gone,
    /// Their neighbours and their list too.
    Deleted,
}

/// Tells a run down to a level.
fn lower_slot(slot: &mut Option<Run>, level: Level)
    ensures { told slot.new ≡ told_down level (told slot.old) }
{
    match level {
        Level::Gone => *slot = None,
        Level::Deleted => {
            if let Some(run) = slot {
                run.content = Content::Deleted(run.len());
            }
        }
    }
}

/// The same of the run at a place.
pub fn lower_told(runs: &mut Vec<Option<Run>>, place: usize, level: Level)
    requires { place < length runs.old.items }
    ensures items { map told runs.new.items ≡ slice_set (map told runs.old.items) place
        (told_down level (run_at (map told runs.old.items) place)) }
    ensures memory { vec_capacity runs.new ≡ vec_capacity runs.old }
    ensures len { length runs.new.items ≡ length runs.old.items }
{
    lower_slot(&mut runs[place], level);
}
