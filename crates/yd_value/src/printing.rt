//! The text of a shown value.

ghost use Rattle.std.specs.Prelude.{◌≡◌, ◌++◌, OnOk, OnErr};
ghost use Rattle.yd_any.specs.Printed.{printed};
ghost use Rattle.yd_value.specs.View.{shown_tree};

use crate::fault::NoMemory;
use crate::printer::Printer;
use crate::shown::Shown;
use crate::writing::write_shown;
use std::mem;

/// Appends the compact JSON text of a shown value, in which what JSON does not have is an object with
/// one key, and nothing where it finds no memory. It takes time with what it appends.
#[tactic(auto, using(crate::proofs::TextLemmas::printed_is_text))]
pub fn print(shown: &Shown, out: &mut Vec<u8>) -> Result<(), NoMemory>
    ensures appended { OnOk result (out.new.items ≡ out.old.items ++ printed (shown_tree shown.now)) }
    ensures unchanged { OnErr result (out.new.items ≡ out.old.items) }
{
    let alloc = *out.allocator();
    let len = out.len();
    let mut printer = Printer::new(mem::replace(out, Vec::new(alloc)));
    let wrote = write_shown(alloc, shown, &mut printer);
    *out = printer.into_bytes();
    if wrote.is_err() {
        // What was written of the value goes again.
        out.truncate(len);
    }
    wrote
}
