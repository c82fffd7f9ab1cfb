//! Updates written in a format.

ghost use Rattle.std.specs.Prelude.{◌≡◌, IfOk};
ghost use Rattle.yd_ops.specs.Valid.{IsValidUpdate};
ghost use Rattle.yd_ops.specs.View.{update_value};
ghost use Rattle.yd_app.specs.Commands.Convert.{StandsAgain, converted_bytes};
ghost use Rattle.yd_app.specs.Commands.Cut.{form_of_kind};

use std::alloc::Global;
use yd_asking::Format;
use yd_files::Kind;
use yd_ops::Update;
use yd_parts::NoMemory;
use yd_v1::write_v1;
use yd_v2::write_v2;

/// The bytes of an update in a format.
pub fn write_in(alloc: Global, format: Format, update: &Update) -> Result<Vec<u8>, NoMemory>
    requires { IsValidUpdate (update_value update.now) }
    ensures written { IfOk result (λ bytes. bytes.items
        ≡ converted_bytes format (update_value update.now)) }
    ensures read_again { IfOk result (λ bytes.
        StandsAgain format bytes.items (update_value update.now)) }
{
    match format {
        Format::V1 => write_v1(alloc, update),
        Format::V2 => write_v2(alloc, update),
    }
}

/// The format of a file of the kind; that of what is no update is V1.
pub fn format_of(kind: Kind) -> Format
    ensures { result ≡ form_of_kind kind }
{
    match kind {
        Kind::V2 => Format::V2,
        _ => Format::V1,
    }
}
