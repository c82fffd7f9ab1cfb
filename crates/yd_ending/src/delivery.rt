//! Writing what a command made: the one place that writes to out.

ghost use Rattle.std.specs.Prelude.{◌≡◌, ◌≢◌, ◌∷◌, [], IsOk};
ghost use Rattle.yd_ending.specs.Ending.{Delivers, status_of};
ghost use Rattle.yd_files.specs.Counts.{count_of};
ghost use Rattle.yd_ending.specs.Status.{IsOneOf};

use crate::stop::Stop;
use crate::writing::write_out;
use yd_world::Sink;

/// Writes what was made. A run that stopped before stays so, and nothing is written.
pub fn deliver<'a, S: Sink>(made: Result<Vec<u8>, Stop<'a>>, out: &mut S) -> Result<(), Stop<'a>>
    ensures delivers { Delivers made.entry (count_of (S.faults out.old) (S.faults out.new))
        (S.bytes_taken out.old) (S.bytes_taken out.new) result }
    ensures untouched { IsOneOf (status_of result) (1 ∷ 2 ∷ 3 ∷ 6 ∷ 7 ∷ 8 ∷ [])
        → out.new ≡ out.old }
    ensures writes { S.is_calm out.old → IsOk made.entry → status_of result ≢ 4 }
    ensures written { status_of result ≢ 4 → S.faults out.new ≡ S.faults out.old }
{
    match made {
        Ok(bytes) => {
            write_out(out, &bytes)?;
            Ok(())
        }
        Err(stop) => Err(stop),
    }
}
