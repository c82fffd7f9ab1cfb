//! What the lines of a script keep beside the replica: places under names, and what can be undone.

ghost use Rattle.std.specs.Prelude.{◌≡◌, [], option_copied};
ghost use Rattle.yd_playing.specs.Desk.{marked, undo_depth};

use std::alloc::Global;
use yd_any::Text;
use yd_places::Position;
use yd_undo::Undo;

/// How many edits can be undone.
const UNDO_DEPTH: u32 = 100;

/// A place that is kept under a name.
#[derive(Drop)]
pub struct Mark {
    /// The name.
    pub name: Text,
    /// The place.
    pub position: Position,
}

/// The places that lines keep, the newest last, and what can be undone and done again.
#[derive(Drop)]
pub struct Desk {
    /// The places.
    pub marks: Vec<Mark>,
    /// What can be undone and done again.
    pub undo: Undo,
}

impl Desk {
    /// No place, and nothing to undo.
    pub fn new(alloc: Global) -> Desk
        ensures marks { result.marks.items ≡ [] }
        ensures undo { result.undo
            ≡ record { depth = undo_depth; noted = []; undo = []; redo = [] } }
    {
        Desk {
            marks: Vec::new(alloc),
            undo: Undo::new(alloc, UNDO_DEPTH),
        }
    }
}

/// The place that is kept under a name: of several the newest. It takes time with the places.
pub fn marked<'a>(marks: &'a [Mark], name: &str) -> Option<&'a Position>
    ensures { option_copied result ≡ marked name.now marks.now }
{
    let mut found = None;
    for mark in marks {
        if mark.name.as_str() == name {
            found = Some(&mark.position);
        }
    }
    found
}
