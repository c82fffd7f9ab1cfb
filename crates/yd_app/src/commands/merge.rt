//! `merge`: one update that says what all say.

ghost use Rattle.std.specs.Prelude.{IfOk};
ghost use Rattle.yd_words.specs.Each.{Each};
ghost use Rattle.yd_ops.specs.Valid.{IsValidUpdate};
ghost use Rattle.yd_files.specs.Seen.{inputs_of};
ghost use Rattle.yd_asking.specs.Command.{merge as merges};
ghost use Rattle.yd_app.specs.Output.{IsMadeOf};

use crate::fault::NoMemory;
use crate::format::write_in;
use std::alloc::Global;
use yd_asking::Format;
use yd_files::Inputs;

/// The bytes of the merge of the updates, in a format.
pub fn merge(alloc: Global, form: Format, inputs: &Inputs) -> Result<Vec<u8>, NoMemory>
    requires { Each IsValidUpdate (inputs_of inputs.now).updates }
    ensures { IfOk result (λ bytes.
        IsMadeOf (merges form) (inputs_of inputs.now) bytes.items) }
{
    let merged = yd_merge::merge(alloc, inputs.updates.as_slice())?;
    let written = write_in(alloc, form, &merged)?;
    Ok(written)
}
