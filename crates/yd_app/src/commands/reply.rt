//! What commands over a network begin with and write at their end.

ghost use Rattle.std.specs.Prelude.{◌≡◌, IfOk};
ghost use Rattle.yd_ops.specs.Valid.{IsValidUpdate};
ghost use Rattle.yd_ops.specs.View.{update_value};
ghost use Rattle.yd_app.specs.Commands.Convert.{StandsAgain, converted_bytes};
ghost use Rattle.yd_app.specs.Commands.Serve.{form_of_one, no_update};

use crate::fault::NoMemory;
use crate::format::{format_of, write_in};
use std::alloc::Global;
use yd_asking::Format;
use yd_files::Kind;
use yd_ids::IdSet;
use yd_ops::{BlockList, Update};

/// An update that says nothing.
pub fn nothing(alloc: Global) -> Update
    ensures { update_value result ≡ no_update }
{
    Update {
        blocks: BlockList::new(alloc),
        deletes: IdSet::new(alloc),
    }
}

/// All that there is at the end, in the format of the one file.
pub fn write_reply(alloc: Global, kinds: &[Kind], reply: &Update) -> Result<Vec<u8>, NoMemory>
    requires { IsValidUpdate (update_value reply.now) }
    ensures written { IfOk result (λ bytes. bytes.items
        ≡ converted_bytes (form_of_one kinds.now) (update_value reply.now)) }
    ensures read_again { IfOk result (λ bytes.
        StandsAgain (form_of_one kinds.now) bytes.items (update_value reply.now)) }
{
    let bytes = write_in(alloc, format_of_one(kinds), reply)?;
    Ok(bytes)
}

// The format of the one file.
fn format_of_one(kinds: &[Kind]) -> Format
    ensures { result ≡ form_of_one kinds.now }
{
    match kinds {
        [kind, ..] => format_of(*kind),
        _ => Format::V1,
    }
}
