//! Where files come from.

ghost use Rattle.std.specs.Prelude.{◌≡◌, ◌≤◌, ℕ, Option, length, IfOk, IsOk};
ghost use Rattle.yd_world.specs.Faults.{HasCause};
ghost use Rattle.yd_world.specs.Shelf.{Shelf, HasName, Begins, Gives};

use crate::fault::Failed;

/// Files by their names, read one after the other from the first byte on.
pub trait Library {
    /// The bytes under each name, the name last begun, and what is unread, where they are told.
    /// Before a `begin` that answered Ok nothing is unread.
    ghost told: { Self → Option Shelf };

    /// How many faults were counted.
    ghost faults: { Self → ℕ };

    /// No call is set to fail.
    ghost is_calm: { Self → Type 0 };

    /// Stands before the first byte under the name.
    fn begin(&mut self, name: &str) -> Result<(), Failed>
        ensures begins { Begins (told self.old) (told self.new) name.now result }
        ensures cause { HasCause (faults self.old) (faults self.new) result }
        ensures calm { is_calm self.old → is_calm self.new }
        ensures named { is_calm self.old → HasName (told self.old) name.now
            → IsOk result × (faults self.new ≡ faults self.old) };

    /// Fills the front of the buffer with the next bytes, and answers how many they are: 0 into a
    /// buffer with room is the end. What the buffer holds behind them, and after `Failed`, is open.
    fn read(&mut self, into: &mut [u8]) -> Result<usize, Failed>
        ensures within { IfOk result (λ count. count ≤ length into.new) }
        ensures gives { Gives (told self.old) (told self.new) into.new result }
        ensures cause { HasCause (faults self.old) (faults self.new) result }
        ensures calm { is_calm self.old
            → is_calm self.new × IsOk result × (faults self.new ≡ faults self.old) };
}
