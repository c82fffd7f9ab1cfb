//! Texts of units.

ghost use Rattle.std.specs.Prelude.{◌≡◌, IfOk};
ghost use Rattle.yd_any.specs.Tree.{str};
ghost use Rattle.yd_units.specs.Text.{text_of as text_of_units};
ghost use Rattle.yd_value.specs.View.{shown_tree};

use crate::fault::NoMemory;
use std::alloc::Global;
use yd_any::Text;
use yd_units::Units;
use yd_value::Shown;

/// The text of units, with U+FFFD for a half without its partner.
pub fn text_of(alloc: Global, units: Units) -> Result<Shown, NoMemory>
    ensures { IfOk result (λ shown. shown_tree shown ≡ str (text_of_units units)) }
{
    let mut bytes = Vec::new(alloc);
    units.write_text(&mut bytes)?;
    let string = String::from_utf8(bytes).unwrap();
    let text = Text::copy_of(alloc, string.as_str())?;
    Ok(Shown::Str(text))
}
