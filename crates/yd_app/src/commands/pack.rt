//! `pack`: the log of all updates.

ghost use Rattle.std.specs.Prelude.{map, IfOk, IfErr};
ghost use Rattle.yd_files.specs.Counts.{count_of};
ghost use Rattle.yd_files.specs.Reading.{ReadsCalmly, StopsAmong};
ghost use Rattle.yd_files.specs.Seen.{file_of};
ghost use Rattle.yd_asking.specs.Command.{pack as packs};
ghost use Rattle.yd_app.specs.Stopping.{MakesOf};

use std::alloc::Global;
use yd_files::{File, FileFault, Taken, take_files};
use yd_v1::LogWriter;
use yd_world::Library;

/// The bytes of a log of the updates of the files, in their order, or why reading them stopped.
/// Each update is written when it is read, and none is kept.
pub fn pack<'a, L: Library>(
    alloc: Global,
    library: &mut L,
    files: &[File<'a>],
) -> Result<Vec<u8>, FileFault<'a>>
    ensures made { IfOk result (λ bytes.
        MakesOf packs (map file_of files.now) (L.told library.old) bytes.items) }
    ensures stops { IfErr result (StopsAmong (L.is_calm library.old) (L.told library.old)
        (L.told library.new) (map file_of files.now)
        (count_of (L.faults library.old) (L.faults library.new))) }
    ensures calm { L.is_calm library.old → ReadsCalmly (L.told library.old)
        (map file_of files.now) (count_of (L.faults library.old) (L.faults library.new)) }
{
    let mut taken = Taken::new(alloc, LogWriter::new(alloc));
    take_files(alloc, library, files, &mut taken)?;
    Ok(taken.updates.finish())
}
