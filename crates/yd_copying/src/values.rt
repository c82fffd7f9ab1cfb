//! Texts, any-values and JSON units of pieces, one after another.

ghost use Rattle.std.specs.Prelude.{◌≡◌, ◌≤◌, ◌+◌, ◌++◌, map, length, take, drop, IfOk, OnOk};
ghost use Rattle.yd_words.specs.Each.{Each};
ghost use Rattle.yd_any.specs.AnyView.{any_trees, items_trees};
ghost use Rattle.yd_any.specs.Rows.{first_trees, other_trees, trees_and};
ghost use Rattle.yd_ops.specs.Valid.{AreValidTrees, IsValidUnit};
ghost use Rattle.yd_ops.specs.View.{unit_value};
ghost use Rattle.yd_copying.specs.Content.{texts_in, trees_in, values_in};
ghost use Rattle.yd_copying.specs.Piece.{IsPiece, piece_units, pieces_units};

use crate::pieces::Piece;
use std::alloc::Global;
use yd_any::{Any, AnyList};
use yd_ops::{Content, JsonUnit, JsonUnits, NoMemory};
use yd_units::Units;

/// The text units of pieces.
pub(crate) fn texts(alloc: Global, pieces: &[Piece<'_>]) -> Result<Vec<u16>, NoMemory>
    requires { Each (IsPiece 1) pieces.now }
    ensures { IfOk result (λ units. units.items ≡ texts_in (pieces_units pieces.now)) }
{
    let mut units = Vec::new(alloc);
    for piece in pieces {
        add_text(&mut units, piece)?;
    }
    Ok(units)
}

/// Appends the text units of a piece.
fn add_text(all: &mut Vec<u16>, piece: &Piece<'_>) -> Result<(), NoMemory>
    requires { IsPiece 1 piece.now }
    ensures { OnOk result (all.new.items ≡ all.old.items ++ texts_in (piece_units piece.now)) }
{
    match piece.content {
        Content::Str(units) => {
            add_units(all, units, piece.offset, piece.len)?;
            Ok(())
        }
        _ => unreachable!(),
    }
}

/// Appends so many units, from one on.
fn add_units(all: &mut Vec<u16>, units: &Units, from: u64, len: u64) -> Result<(), NoMemory>
    requires { from + len ≤ length units.now }
    ensures { OnOk result (all.new.items ≡ all.old.items ++ take len (drop from units.now)) }
{
    // The length is in range, and so is each place.
    let _len = units.len();
    let mut done = 0;
    while done < len {
        all.push(units.unit(from + done).unwrap_or(0))?;
        done += 1;
    }
    Ok(())
}

/// The any-values of pieces.
pub(crate) fn values(alloc: Global, pieces: &[Piece<'_>]) -> Result<AnyList, NoMemory>
    requires { Each (IsPiece 2) pieces.now }
    ensures { IfOk result (λ values. any_trees values ≡ trees_in (pieces_units pieces.now)) }
{
    let mut values = AnyList::new(alloc);
    for piece in pieces {
        add_values(&mut values, piece)?;
    }
    Ok(values)
}

/// Appends the any-values of a piece.
fn add_values(all: &mut AnyList, piece: &Piece<'_>) -> Result<(), NoMemory>
    requires { IsPiece 2 piece.now }
    ensures { OnOk result (any_trees all.new
        ≡ trees_and (any_trees all.old) (trees_in (piece_units piece.now))) }
{
    match piece.content {
        Content::Any(values) => {
            add_items(all, values.as_slice(), piece.offset, piece.len)?;
            Ok(())
        }
        _ => unreachable!(),
    }
}

/// Appends copies of so many values, from one on.
fn add_items(all: &mut AnyList, values: &[Any], from: u64, len: u64) -> Result<(), NoMemory>
    requires within { from + len ≤ length values.now }
    requires valid { AreValidTrees (first_trees len (other_trees from (items_trees values.now))) }
    ensures { OnOk result (any_trees all.new ≡ trees_and (any_trees all.old)
        (first_trees len (other_trees from (items_trees values.now)))) }
{
    // The length is in range, and so is each place.
    let _len = values.len();
    add_all(all, &values[from as usize..(from + len) as usize])?;
    Ok(())
}

/// Appends copies of values.
fn add_all(all: &mut AnyList, values: &[Any]) -> Result<(), NoMemory>
    requires { AreValidTrees (items_trees values.now) }
    ensures { OnOk result (any_trees all.new
        ≡ trees_and (any_trees all.old) (items_trees values.now)) }
{
    for value in values {
        all.push(value.copy()?)?;
    }
    Ok(())
}

/// The JSON units of pieces.
pub(crate) fn json_units(alloc: Global, pieces: &[Piece<'_>]) -> Result<JsonUnits, NoMemory>
    requires { Each (IsPiece 3) pieces.now }
    ensures { IfOk result (λ units. map unit_value units ≡ values_in (pieces_units pieces.now)) }
{
    let mut units = JsonUnits::new(alloc);
    for piece in pieces {
        add_json(&mut units, piece)?;
    }
    Ok(units)
}

/// Appends the JSON units of a piece.
fn add_json(all: &mut JsonUnits, piece: &Piece<'_>) -> Result<(), NoMemory>
    requires { IsPiece 3 piece.now }
    ensures { OnOk result (map unit_value all.new
        ≡ map unit_value all.old ++ values_in (piece_units piece.now)) }
{
    match piece.content {
        Content::Json(units) => {
            add_each(all, units.as_slice(), piece.offset, piece.len)?;
            Ok(())
        }
        _ => unreachable!(),
    }
}

/// Appends copies of so many JSON units, from one on.
fn add_each(all: &mut JsonUnits, units: &[JsonUnit], from: u64, len: u64) -> Result<(), NoMemory>
    requires within { from + len ≤ length units.now }
    requires valid { Each IsValidUnit (take len (drop from (map unit_value units.now))) }
    ensures { OnOk result (map unit_value all.new
        ≡ map unit_value all.old ++ take len (drop from (map unit_value units.now))) }
{
    // The length is in range, and so is each place.
    let _len = units.len();
    add_each_of(all, &units[from as usize..(from + len) as usize])?;
    Ok(())
}

/// Appends copies of JSON units.
fn add_each_of(all: &mut JsonUnits, units: &[JsonUnit]) -> Result<(), NoMemory>
    requires { Each IsValidUnit (map unit_value units.now) }
    ensures { OnOk result (map unit_value all.new
        ≡ map unit_value all.old ++ map unit_value units.now) }
{
    for unit in units {
        all.push(unit.copy()?)?;
    }
    Ok(())
}
