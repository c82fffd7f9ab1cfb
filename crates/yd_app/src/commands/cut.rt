//! `cut`: what an update has from a state vector on.

ghost use Rattle.std.specs.Prelude.{◌≡◌, ℕ, List, map, IfErr, IfOk};
ghost use Rattle.yd_words.specs.Each.{Each};
ghost use Rattle.yd_ops.specs.Valid.{IsValidUpdate};
ghost use Rattle.yd_ops.specs.View.{update_value};
ghost use Rattle.yd_files.specs.Counts.{count_of};
ghost use Rattle.yd_files.specs.Reading.{ReadsCalmly, StopsAmong};
ghost use Rattle.yd_files.specs.Seen.{file_of, inputs_of};
ghost use Rattle.yd_asking.specs.Command.{cut as cuts};
ghost use Rattle.yd_app.specs.Commands.Cut.{CutStands, CutStandsAgain, cut_bytes, cut_output, form_of};
ghost use Rattle.yd_app.specs.Output.{IsMadeOf};
ghost use Rattle.yd_app.specs.Stopping.{MakesOf};

use crate::commands::cutting::Cutting;
use crate::fault::NoMemory;
use crate::format::{format_of, write_in};
use std::alloc::Global;
use yd_asking::Format;
use yd_files::{File, FileFault, Inputs, Kind, take_files};
use yd_ids::Vector;
use yd_ops::Update;
use yd_world::Library;

/// The bytes of what the one update has from the one state vector on, in the format of its file; or
/// why reading the files stopped. An update in V1 is cut while it is read.
pub fn cut<'a, L: Library>(
    alloc: Global,
    library: &mut L,
    files: &[File<'a>],
) -> Result<Vec<u8>, FileFault<'a>>
    ensures made { (name : List ℕ) → IfOk result (λ bytes.
        MakesOf (cuts name) (map file_of files.now) (L.told library.old) bytes.items) }
    ensures stops { IfErr result (StopsAmong (L.is_calm library.old) (L.told library.old)
        (L.told library.new) (map file_of files.now)
        (count_of (L.faults library.old) (L.faults library.new))) }
    ensures calm { L.is_calm library.old → ReadsCalmly (L.told library.old)
        (map file_of files.now) (count_of (L.faults library.old) (L.faults library.new)) }
{
    let mut cutting = Cutting::new(alloc);
    take_files(alloc, library, files, &mut cutting)?;
    match cutting.finish(alloc) {
        Ok(written) => Ok(written),
        Err(_) => Err(FileFault::NoMemory),
    }
}

/// So of the files' inputs, where they were kept.
pub fn cut_kept(alloc: Global, inputs: &Inputs) -> Result<Vec<u8>, NoMemory>
    requires { Each IsValidUpdate (inputs_of inputs.now).updates }
    ensures { (name : List ℕ) → IfOk result (λ bytes.
        IsMadeOf (cuts name) (inputs_of inputs.now) bytes.items) }
{
    let written = cut_in(
        alloc,
        &inputs.kinds,
        &inputs.vectors,
        inputs.updates.as_slice(),
    )?;
    Ok(written)
}

// So of the kinds of the files, their state vectors and their updates.
fn cut_in(
    alloc: Global,
    kinds: &[Kind],
    vectors: &[Vector],
    updates: &[Update],
) -> Result<Vec<u8>, NoMemory>
    requires { Each IsValidUpdate (map update_value updates.now) }
    ensures written { IfOk result (λ bytes. bytes.items
        ≡ cut_output kinds.now vectors.now (map update_value updates.now)) }
    ensures read_again { IfOk result (λ bytes.
        CutStandsAgain kinds.now vectors.now (map update_value updates.now)) }
{
    match vectors {
        [vector, ..] => cut_from(alloc, form(kinds), vector, updates),
        _ => Ok(Vec::new(alloc)),
    }
}

// The first update from a state vector on, in a format.
fn cut_from(
    alloc: Global,
    form: Format,
    vector: &Vector,
    updates: &[Update],
) -> Result<Vec<u8>, NoMemory>
    requires { Each IsValidUpdate (map update_value updates.now) }
    ensures written { IfOk result (λ bytes. bytes.items
        ≡ cut_bytes form vector.now (map update_value updates.now)) }
    ensures read_again { IfOk result (λ bytes.
        CutStands form vector.now (map update_value updates.now)) }
{
    match updates {
        [update, ..] => {
            let part = yd_merge::cut(alloc, update, vector)?;
            let written = write_in(alloc, form, &part)?;
            Ok(written)
        }
        _ => Ok(Vec::new(alloc)),
    }
}

// The format of the update's file.
fn form(kinds: &[Kind]) -> Format
    ensures { result ≡ form_of kinds.now }
{
    match kinds {
        [_, kind, ..] => format_of(*kind),
        _ => Format::V1,
    }
}
