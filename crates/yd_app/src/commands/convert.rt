//! `convert`: an update in another spelling.

ghost use Rattle.std.specs.Prelude.{IfOk};
ghost use Rattle.yd_words.specs.Each.{Each};
ghost use Rattle.yd_ops.specs.Valid.{IsValidUpdate};
ghost use Rattle.yd_files.specs.Seen.{inputs_of};
ghost use Rattle.yd_asking.specs.Command.{convert as converts};
ghost use Rattle.yd_app.specs.Output.{IsMadeOf};

use crate::fault::NoMemory;
use crate::format::write_in;
use std::alloc::Global;
use yd_asking::Format;
use yd_files::Inputs;

/// The bytes of the one update, in another format or the same.
pub fn convert(alloc: Global, form: Format, inputs: &Inputs) -> Result<Vec<u8>, NoMemory>
    requires { Each IsValidUpdate (inputs_of inputs.now).updates }
    ensures { IfOk result (λ bytes.
        IsMadeOf (converts form) (inputs_of inputs.now) bytes.items) }
{
    match inputs.updates.as_slice() {
        [update, ..] => {
            let written = write_in(alloc, form, update)?;
            Ok(written)
        }
        _ => Ok(Vec::new(alloc)),
    }
}
