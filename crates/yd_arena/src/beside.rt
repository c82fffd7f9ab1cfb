//! What lies beside the runs and is cut with them.

ghost use Rattle.std.specs.Prelude.{◌≡◌, ◌<◌, ℕ, OnOk, OnErr};
ghost use Rattle.yd_index.specs.Line.{Fills, IsInside};
ghost use Rattle.yd_index.specs.Lines.{entries_of, next_of, Cuts, Stays};

use std::alloc::AllocError;
use yd_ids::Id;
use yd_index::Index;

/// Something that lies at the places of an arena beside the runs, as what they hold, and is cut with
/// them. Its ghost members say what a cut asks, what it does, and when all is as before.
pub trait Beside {
    ghost can_cut: { Self → ℕ → ℕ → Type 0 };

    ghost cuts: { Self → Self → ℕ → ℕ → Type 0 };

    ghost keeps: { Self → Self → Type 0 };

    /// Cuts what lies at a place in two behind so many units. The second part comes last.
    fn cut_beside(&mut self, place: usize, n: u64) -> Result<(), AllocError>
        requires { can_cut self.old place n }
        ensures done { OnOk result (cuts self.old self.new place n) }
        ensures unchanged { OnErr result (keeps self.old self.new) };
}

/// Cuts an entry of the index, and what lies beside its run, or neither.
pub fn cut_both<B: Beside>(
    index: &mut Index,
    beside: &mut B,
    id: Id,
    more: usize,
    place: usize,
    n: u64,
) -> Result<(), AllocError>
    requires inside { IsInside (entries_of index.old id.client.0)
        (next_of index.old id.client.0) id.clock }
    requires fills { Fills 0 (entries_of index.old id.client.0) (next_of index.old id.client.0) }
    requires can { B.can_cut beside.old place n }
    requires same { B.keeps beside.old beside.old }
    ensures done { OnOk result (Cuts index.old index.new id more) }
    ensures beside { OnOk result (B.cuts beside.old beside.new place n) }
    ensures unchanged { OnErr result (Stays index.old index.new id.client.0) }
    ensures kept { OnErr result (B.keeps beside.old beside.new) }
{
    index.cut(id, more)?;
    if let Err(fault) = beside.cut_beside(place, n) {
        index.uncut(id);
        return Err(fault);
    }
    Ok(())
}
