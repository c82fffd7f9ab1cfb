//! Reading files in their order: each loaded whole, judged by its grammar, and then the next.

ghost use Rattle.std.specs.Prelude.{◌≡◌, ◌≤◌, map, IfOk, IfErr, OnOk};
ghost use Rattle.yd_words.specs.Each.{Each};
ghost use Rattle.yd_ops.specs.Valid.{IsValidUpdate};
ghost use Rattle.yd_world.specs.Shelf.{HasName};
ghost use Rattle.yd_files.specs.Counts.{count_of};
ghost use Rattle.yd_files.specs.Loading.{KeepsFiles};
ghost use Rattle.yd_files.specs.Reading.{ReadsCalmly, ReadsOne, StopsAmong, StopsReading, TakesFiles, no_inputs};
ghost use Rattle.yd_files.specs.Seen.{file_of, inputs_of};
ghost use Rattle.yd_files.specs.Verdict.{StandFor};

use crate::fault::{FileFault, LoadFault};
use crate::file::File;
use crate::inputs::Inputs;
use crate::loading::read_all;
use crate::taker::{FileTaker, Taken};
use std::alloc::Global;
use yd_parts::ReadError;
use yd_v1::UpdateList;
use yd_world::Library;

/// What the files stand for, in their order, or the first file that is not accepted.
pub fn read_files<'a, L: Library>(
    alloc: Global,
    library: &mut L,
    files: &[File<'a>],
) -> Result<Inputs, FileFault<'a>>
    ensures read { IfOk result (λ inputs.
        StandFor (L.told library.old) (map file_of files.now) (inputs_of inputs)) }
    ensures valid { IfOk result (λ inputs. Each IsValidUpdate (inputs_of inputs).updates) }
    ensures stops { IfErr result (StopsAmong (L.is_calm library.old) (L.told library.old)
        (L.told library.new) (map file_of files.now)
        (count_of (L.faults library.old) (L.faults library.new))) }
    ensures calm { L.is_calm library.old → ReadsCalmly (L.told library.old)
        (map file_of files.now) (count_of (L.faults library.old) (L.faults library.new)) }
{
    let mut taken = Taken::new(alloc, UpdateList::new(alloc));
    take_files(alloc, library, files, &mut taken)?;
    Ok(taken.others.with(taken.updates))
}

/// Reads the files as [`read_files`] does, and hands the bytes of each to a taker, which keeps of
/// them what it wants (own). After an error it is left open what was taken.
pub fn take_files<'a, L: Library, T: FileTaker>(
    alloc: Global,
    library: &mut L,
    files: &[File<'a>],
    taker: &mut T,
) -> Result<(), FileFault<'a>>
    requires { T.took taker.old no_inputs }
    ensures read { OnOk result (TakesFiles (L.told library.old) (map file_of files.now)
        (T.took taker.new)) }
    ensures stops { IfErr result (StopsAmong (L.is_calm library.old) (L.told library.old)
        (L.told library.new) (map file_of files.now)
        (count_of (L.faults library.old) (L.faults library.new))) }
    ensures calm { L.is_calm library.old → ReadsCalmly (L.told library.old)
        (map file_of files.now) (count_of (L.faults library.old) (L.faults library.new)) }
{
    for file in files {
        take_next(alloc, library, *file, taker)?;
    }
    Ok(())
}

// Hands one file to the taker.
fn take_next<'a, L: Library, T: FileTaker>(
    alloc: Global,
    library: &mut L,
    file: File<'a>,
    taker: &mut T,
) -> Result<(), FileFault<'a>>
    ensures read { OnOk result (ReadsOne (L.told library.old) (file_of file.entry)
        (T.took taker.old) (T.took taker.new)) }
    ensures stops { IfErr result (StopsReading (L.is_calm library.old) (L.told library.old)
        (L.told library.new) (file_of file.entry)
        (count_of (L.faults library.old) (L.faults library.new))) }
    ensures files { KeepsFiles (L.told library.old) (L.told library.new) }
    ensures counts { L.faults library.old ≤ L.faults library.new }
    ensures calm { L.is_calm library.old → HasName (L.told library.old) (file_of file.entry).name
        → L.is_calm library.new × (L.faults library.new ≡ L.faults library.old) }
{
    let bytes = match read_all(alloc, library, file.name) {
        Ok(bytes) => bytes,
        Err(LoadFault::NoMemory) => return Err(FileFault::NoMemory),
        Err(LoadFault::ReadFault) => return Err(FileFault::ReadFault(file)),
        Err(LoadFault::TooLarge) => return Err(FileFault::TooLarge(file)),
    };
    match taker.take(alloc, file.kind, &bytes) {
        Ok(()) => Ok(()),
        Err(ReadError::NoMemory) => Err(FileFault::NoMemory),
        Err(ReadError::Fault { cause, spot }) => Err(FileFault::Refused { file, cause, spot }),
    }
}
