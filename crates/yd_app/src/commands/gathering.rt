//! Files that are read with their updates gathered.

ghost use Rattle.std.specs.Prelude.{map, IfErr, IfOk};
ghost use Rattle.yd_words.specs.Each.{Each};
ghost use Rattle.yd_ops.specs.Valid.{IsValidUpdate};
ghost use Rattle.yd_files.specs.Counts.{count_of};
ghost use Rattle.yd_files.specs.Reading.{ReadsCalmly, StopsAmong};
ghost use Rattle.yd_files.specs.Seen.{file_of, inputs_of};
ghost use Rattle.yd_app.specs.Gathered.{StandGathered};

use std::alloc::Global;
use yd_files::{File, FileFault, Inputs, Kind, Taken, read_files, take_files};
use yd_gathering::Gatherer;
use yd_world::Library;

/// What the files stand for, in their order, but perhaps with fewer updates of which the same is
/// received; or the first file that is not accepted. Updates are gathered where a log is among the
/// files.
pub fn gather_files<'a, L: Library>(
    alloc: Global,
    library: &mut L,
    files: &[File<'a>],
) -> Result<Inputs, FileFault<'a>>
    ensures gathered { IfOk result (λ inputs.
        StandGathered (L.told library.old) (map file_of files.now) (inputs_of inputs)) }
    ensures valid { IfOk result (λ inputs. Each IsValidUpdate (inputs_of inputs).updates) }
    ensures stops { IfErr result (StopsAmong (L.is_calm library.old) (L.told library.old)
        (L.told library.new) (map file_of files.now)
        (count_of (L.faults library.old) (L.faults library.new))) }
    ensures calm { L.is_calm library.old → ReadsCalmly (L.told library.old)
        (map file_of files.now) (count_of (L.faults library.old) (L.faults library.new)) }
{
    if !has_log(files) {
        let inputs = read_files(alloc, library, files)?;
        return Ok(inputs);
    }
    let mut taken = Taken::new(alloc, Gatherer::new(alloc));
    take_files(alloc, library, files, &mut taken)?;
    let Taken { others, updates } = taken;
    let gathered = updates.finish()?;
    Ok(others.with(gathered))
}

// A log is among the files. It says only whether it is worth while to gather their updates.
fn has_log(files: &[File<'_>]) -> bool {
    for file in files {
        if let Kind::Log = file.kind {
            return true;
        }
    }
    false
}
