//! Where bytes go.

ghost use Rattle.std.specs.Prelude.{◌≡◌, ◌≤◌, ℕ, List, Option, length, IfOk};
ghost use Rattle.yd_world.specs.Faults.{HasOutage};
ghost use Rattle.yd_world.specs.Taken.{Takes, CountsNone, TakesSome};

use crate::fault::Outage;

/// Takes bytes, in the order in which they are written.
pub trait Sink {
    /// The bytes that it took, where they are told.
    ghost bytes_taken: { Self → Option (List ℕ) };

    /// How many faults were counted.
    ghost faults: { Self → ℕ };

    /// No call is set to fail.
    ghost is_calm: { Self → Type 0 };

    /// Takes a front of the piece, and answers how many bytes it is. 0 of a piece that is not empty
    /// is a fault.
    fn write(&mut self, piece: &[u8]) -> Result<usize, Outage>
        ensures within { IfOk result (λ count. count ≤ length piece.now) }
        ensures takes { Takes (bytes_taken self.old) (bytes_taken self.new) piece.now result }
        ensures cause { HasOutage (faults self.old) (faults self.new) result }
        ensures none { CountsNone (faults self.old) (faults self.new) piece.now result }
        ensures calm { is_calm self.old → is_calm self.new × TakesSome piece.now result
            × (faults self.new ≡ faults self.old) };
}
