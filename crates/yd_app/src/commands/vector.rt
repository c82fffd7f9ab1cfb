//! `vector`: the clock that each client reaches.

ghost use Rattle.std.specs.Prelude.{map, IfOk, IfErr};
ghost use Rattle.yd_files.specs.Counts.{count_of};
ghost use Rattle.yd_files.specs.Reading.{ReadsCalmly, StopsAmong};
ghost use Rattle.yd_files.specs.Seen.{file_of};
ghost use Rattle.yd_asking.specs.Command.{vector as vectors};
ghost use Rattle.yd_app.specs.Stopping.{MakesOf};

use std::alloc::Global;
use yd_files::{File, FileFault, Taken, take_files};
use yd_skimming::Reach;
use yd_v1::write_vector;
use yd_world::Library;

/// The bytes of the state vector of the merge of the files' updates, or why reading them stopped.
/// Nothing is merged for it, and of each update only its ids are kept.
pub fn vector<'a, L: Library>(
    alloc: Global,
    library: &mut L,
    files: &[File<'a>],
) -> Result<Vec<u8>, FileFault<'a>>
    ensures made { IfOk result (λ bytes.
        MakesOf vectors (map file_of files.now) (L.told library.old) bytes.items) }
    ensures stops { IfErr result (StopsAmong (L.is_calm library.old) (L.told library.old)
        (L.told library.new) (map file_of files.now)
        (count_of (L.faults library.old) (L.faults library.new))) }
    ensures calm { L.is_calm library.old → ReadsCalmly (L.told library.old)
        (map file_of files.now) (count_of (L.faults library.old) (L.faults library.new)) }
{
    let mut taken = Taken::new(alloc, Reach::new(alloc));
    take_files(alloc, library, files, &mut taken)?;
    let reached = taken.updates.vector(alloc)?;
    let written = write_vector(alloc, &reached)?;
    Ok(written)
}
