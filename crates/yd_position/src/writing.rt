//! Positions, written.

ghost use Rattle.std.specs.Prelude.{◌≡◌, ◌<◌, ◌^◌, ◌∷◌, ◌++◌, unsigned_abs, IfOk, OnOk};
ghost use Rattle.yd_num.specs.Writing.{shortest};
ghost use Rattle.yd_ids.specs.Id.{IsId};
ghost use Rattle.yd_position.specs.Grammar.{StandsForPosition};
ghost use Rattle.yd_position.specs.Writing.{IsWritableTarget, HasIds, bytes_of_position, bytes_of_target};

use crate::fault::NoMemory;
use crate::position::{Position, Target};
use crate::targets::{FORM_ITEM, FORM_ROOT, FORM_UNIT};
use std::alloc::Global;
use yd_ids::Id;
use yd_num::{Bytes, Signed};

/// The bytes of a position, which stand for that position. `assoc` is always written (Yjs 13,
/// encodeRelativePosition). A root's name of 2^53 bytes or more finds no memory (own).
pub fn write_position(alloc: Global, position: &Position) -> Result<Vec<u8>, NoMemory>
    requires ids { HasIds position.now.target }
    requires assoc { unsigned_abs position.now.assoc < 2 ^ 53 }
    ensures written { IfOk result (λ bytes. bytes.items ≡ bytes_of_position position.now) }
    ensures read_again { IfOk result (λ bytes. StandsForPosition bytes.items position.now) }
{
    let bytes = write_parts(alloc, position)?;
    Ok(bytes)
}

fn write_parts(alloc: Global, position: &Position) -> Result<Vec<u8>, NoMemory>
    requires ids { HasIds position.now.target }
    requires assoc { unsigned_abs position.now.assoc < 2 ^ 53 }
    ensures written { IfOk result (λ bytes. bytes.items ≡ bytes_of_position position.now) }
    ensures writable { OnOk result (IsWritableTarget position.now.target) }
{
    let mut bytes = Bytes::new(alloc);
    push_target(&mut bytes, &position.target)?;
    bytes.push_signed(Signed {
        negative: position.assoc < 0,
        size: position.assoc.unsigned_abs(),
    })?;
    Ok(bytes.into_vec())
}

fn push_target(bytes: &mut Bytes, target: &Target) -> Result<(), NoMemory>
    requires { HasIds target.now }
    ensures written { OnOk result (bytes.new ≡ bytes.old ++ bytes_of_target target.now) }
    ensures writable { OnOk result (IsWritableTarget target.now) }
{
    match target {
        Target::Unit(id) => {
            push_id(bytes, FORM_UNIT, *id)?;
        }
        Target::Root(name) => {
            bytes.push_byte(FORM_ROOT)?;
            bytes.push_text(name.as_str())?;
        }
        Target::Item(id) => {
            push_id(bytes, FORM_ITEM, *id)?;
        }
    }
    Ok(())
}

/// A number, and an id behind it.
fn push_id(bytes: &mut Bytes, form: u8, id: Id) -> Result<(), NoMemory>
    requires { IsId id }
    ensures { OnOk result (bytes.new ≡ bytes.old ++ form ∷ shortest id.client.0 ++ shortest id.clock) }
{
    bytes.push_byte(form)?;
    bytes.push_unsigned(id.client.0)?;
    bytes.push_unsigned(id.clock)?;
    Ok(())
}
