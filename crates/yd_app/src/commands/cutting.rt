//! The files of a cut, taken one after another.

ghost use Rattle.std.specs.Prelude.{ℕ, List, map, IfOk, IfSome};
ghost use Rattle.yd_words.specs.Each.{Each};
ghost use Rattle.yd_files.specs.Reading.{no_inputs};
ghost use Rattle.yd_files.specs.Seen.{inputs_with};
ghost use Rattle.yd_files.specs.Verdict.{Inputs as InputsRead};
ghost use Rattle.yd_ops.specs.Valid.{IsValidUpdate};
ghost use Rattle.yd_ops.specs.View.{update_value};
ghost use Rattle.yd_asking.specs.Command.{cut as cuts};
ghost use Rattle.yd_app.specs.Commands.Cut.{HasCut, IsFirstVector};
ghost use Rattle.yd_app.specs.Output.{IsMadeOf};

use crate::commands::cut::cut_kept;
use crate::fault::NoMemory;
use std::alloc::Global;
use yd_files::{FileTaker, Kind, Others, Taken};
use yd_ids::Vector;
use yd_parts::ReadError;
use yd_skimming::cut_v1;
use yd_v1::UpdateList;

/// Takes the files of a cut. An update in V1 that comes right behind one state vector is cut while
/// it is read. All else is kept.
#[derive(Drop)]
pub struct Cutting {
    /// What is kept.
    pub kept: Taken<UpdateList>,
    /// The cut, where the update was cut while it was read.
    pub cut: Option<Vec<u8>>,
}

impl Cutting {
    /// No file yet.
    pub fn new(alloc: Global) -> Cutting
        ensures { HasCut result no_inputs }
    {
        Cutting {
            kept: Taken::new(alloc, UpdateList::new(alloc)),
            cut: None,
        }
    }

    /// The bytes of the cut.
    pub fn finish(self, alloc: Global) -> Result<Vec<u8>, NoMemory>
        requires { (inputs : InputsRead) × HasCut self inputs × Each IsValidUpdate inputs.updates }
        ensures { IfOk result (λ bytes. (name : List ℕ) (inputs : InputsRead) → HasCut self inputs
            → IsMadeOf (cuts name) inputs bytes.items) }
    {
        let Cutting { kept, cut } = self;
        match cut {
            Some(bytes) => Ok(bytes),
            None => cut_inputs(alloc, kept),
        }
    }
}

impl FileTaker for Cutting {
    ghost use Rattle.yd_app.specs.Commands.Cut.{HasCut};

    ghost took = { λ cutting inputs. HasCut cutting inputs };

    fn take(&mut self, alloc: Global, kind: Kind, bytes: &[u8]) -> Result<(), ReadError> {
        if let Some(vector) = vector_before(kind, &self.kept, &self.cut) {
            let cut = cut_v1(alloc, bytes, vector)?;
            self.cut = Some(cut);
            return Ok(());
        }
        self.kept.take(alloc, kind, bytes)?;
        Ok(())
    }
}

// The bytes of the cut of what was kept.
fn cut_inputs(alloc: Global, kept: Taken<UpdateList>) -> Result<Vec<u8>, NoMemory>
    requires { Each IsValidUpdate (map update_value kept.updates) }
    ensures { (name : List ℕ) → IfOk result (λ bytes. IsMadeOf (cuts name)
        (inputs_with kept.others (map update_value kept.updates)) bytes.items) }
{
    let Taken { others, updates } = kept;
    let inputs = others.with(updates);
    let bytes = cut_kept(alloc, &inputs)?;
    Ok(bytes)
}

// The one file before an update in V1, where that was a state vector.
fn vector_before<'c>(
    kind: Kind,
    kept: &'c Taken<UpdateList>,
    cut: &Option<Vec<u8>>,
) -> Option<&'c Vector>
    ensures { IfSome result (λ vector. IsFirstVector kind
        (inputs_with kept.now.others (map update_value kept.now.updates)) cut.now vector.now) }
{
    if cut.is_some() || !kept.updates.as_slice().is_empty() {
        return None;
    }
    match (
        kind,
        kept.others.kinds.as_slice(),
        kept.others.vectors.as_slice(),
    ) {
        (Kind::V1, [Kind::Vector], [vector, ..]) => Some(vector),
        _ => None,
    }
}
