//! Writing origins and lists.

ghost use Rattle.std.specs.Prelude.{IfSome, OnOk};
ghost use Rattle.yd_ids.specs.Id.{IsId};
ghost use Rattle.yd_ops.specs.Valid.{IsParent};
ghost use Rattle.yd_fields.specs.UpdateFields.{fields_of_key, fields_of_left, fields_of_list};
ghost use Rattle.yd_fields.specs.UpdateFields.{fields_of_parent, fields_of_right};
ghost use Rattle.yd_fields.specs.Writes.{IsWritableList, Writes};

use crate::writer::FieldWriter;
use yd_any::Text;
use yd_ids::Id;
use yd_ops::{List, Parent};
use yd_parts::NoMemory;

/// A left origin, where it is there.
pub fn write_left<W: FieldWriter>(left: Option<Id>, writer: &mut W) -> Result<(), NoMemory>
    requires { IfSome left IsId }
    ensures { OnOk result (Writes W.with_field W.is_spelled
        (fields_of_left left) writer.old writer.new) }
{
    match left {
        None => Ok(()),
        Some(id) => {
            writer.put_left(id)?;
            Ok(())
        }
    }
}

/// A right origin, where it is there.
pub fn write_right<W: FieldWriter>(right: Option<Id>, writer: &mut W) -> Result<(), NoMemory>
    requires { IfSome right IsId }
    ensures { OnOk result (Writes W.with_field W.is_spelled
        (fields_of_right right) writer.old writer.new) }
{
    match right {
        None => Ok(()),
        Some(id) => {
            writer.put_right(id)?;
            Ok(())
        }
    }
}

/// The list of an item, where it carries one.
pub fn write_list<W: FieldWriter>(list: &Option<List>, writer: &mut W) -> Result<(), NoMemory>
    requires { IsWritableList list.now }
    ensures { OnOk result (Writes W.with_field W.is_spelled
        (fields_of_list list.now) writer.old writer.new) }
{
    match list {
        None => Ok(()),
        Some(list) => {
            write_parent(&list.parent, writer)?;
            write_key(&list.key, writer)?;
            Ok(())
        }
    }
}

fn write_parent<W: FieldWriter>(parent: &Parent, writer: &mut W) -> Result<(), NoMemory>
    requires { IsParent parent.now }
    ensures { OnOk result (Writes W.with_field W.is_spelled
        (fields_of_parent parent.now) writer.old writer.new) }
{
    match parent {
        Parent::Root(name) => {
            writer.put_flag(1)?;
            writer.put_string(name.as_str())?;
            Ok(())
        }
        Parent::Item(id) => {
            writer.put_flag(0)?;
            writer.put_left(*id)?;
            Ok(())
        }
    }
}

fn write_key<W: FieldWriter>(key: &Option<Text>, writer: &mut W) -> Result<(), NoMemory>
    ensures { OnOk result (Writes W.with_field W.is_spelled
        (fields_of_key key.now) writer.old writer.new) }
{
    match key {
        None => Ok(()),
        Some(key) => {
            writer.put_string(key.as_str())?;
            Ok(())
        }
    }
}
