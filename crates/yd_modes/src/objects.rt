//! Objects that stand for types: elements, hooks, trees, and what lies too deep.

ghost use Rattle.std.specs.Prelude.{◌≡◌, IfOk, codes, true};
ghost use Rattle.yd_any.specs.Tree.{pairs, flag, str, field, no_fields};
ghost use Rattle.yd_shown.specs.Shown.{too_deep as deep_value};
ghost use Rattle.yd_value.specs.View.{shown_tree, shown_fields};

use crate::fault::NoMemory;
use std::alloc::Global;
use yd_any::Text;
use yd_value::{Shown, ShownElement, ShownFields};

/// An element: its attributes, its children and its name.
pub fn element_of(
    alloc: Global,
    attributes: ShownFields,
    children: Shown,
    name: &Text,
) -> Result<Shown, NoMemory>
    ensures { IfOk result (λ shown. shown_tree shown
        ≡ pairs (field (codes "attributes") (pairs (shown_fields attributes))
        (field (codes "children") (shown_tree children)
        (field (codes "name") (str name.now) no_fields)))) }
{
    let element = ShownElement {
        attributes,
        children,
        name: name.copy()?,
    };
    Ok(Shown::Element(Box::new(alloc, element)?))
}

/// A hook: its attributes and its name.
pub fn hook_of(alloc: Global, attributes: ShownFields, name: &Text) -> Result<Shown, NoMemory>
    ensures { IfOk result (λ shown. shown_tree shown
        ≡ pairs (field (codes "attributes") (pairs (shown_fields attributes))
        (field (codes "hook") (str name.now) no_fields))) }
{
    let mut fields = ShownFields::new(alloc);
    fields.push((
        Text::copy_of(alloc, "attributes")?,
        Shown::Fields(attributes),
    ))?;
    fields.push((Text::copy_of(alloc, "hook")?, Shown::Str(name.copy()?)))?;
    Ok(Shown::Fields(fields))
}

/// A tree: its attributes and its children.
pub fn tree_of(alloc: Global, attributes: ShownFields, children: Shown) -> Result<Shown, NoMemory>
    ensures { IfOk result (λ shown. shown_tree shown
        ≡ pairs (field (codes "attributes") (pairs (shown_fields attributes))
        (field (codes "children") (shown_tree children) no_fields))) }
{
    let mut fields = ShownFields::new(alloc);
    fields.push((
        Text::copy_of(alloc, "attributes")?,
        Shown::Fields(attributes),
    ))?;
    fields.push((Text::copy_of(alloc, "children")?, children))?;
    Ok(Shown::Fields(fields))
}

/// A text or a value under attributes.
pub fn marked_insert(
    alloc: Global,
    attributes: ShownFields,
    insert: Shown,
) -> Result<Shown, NoMemory>
    ensures { IfOk result (λ shown. shown_tree shown
        ≡ pairs (field (codes "attributes") (pairs (shown_fields attributes))
        (field (codes "insert") (shown_tree insert) no_fields))) }
{
    let mut fields = ShownFields::new(alloc);
    fields.push((
        Text::copy_of(alloc, "attributes")?,
        Shown::Fields(attributes),
    ))?;
    fields.push((Text::copy_of(alloc, "insert")?, insert))?;
    Ok(Shown::Fields(fields))
}

/// A text or a value without attributes.
pub fn plain_insert(alloc: Global, insert: Shown) -> Result<Shown, NoMemory>
    ensures { IfOk result (λ shown. shown_tree shown
        ≡ pairs (field (codes "insert") (shown_tree insert) no_fields)) }
{
    let mut fields = ShownFields::new(alloc);
    fields.push((Text::copy_of(alloc, "insert")?, insert))?;
    Ok(Shown::Fields(fields))
}

/// What stands for a type that lies too deep.
pub fn too_deep(alloc: Global) -> Result<Shown, NoMemory>
    ensures { IfOk result (λ shown. shown_tree shown ≡ deep_value) }
{
    let mut fields = ShownFields::new(alloc);
    fields.push((Text::copy_of(alloc, "$deep")?, Shown::Flag(true)))?;
    Ok(Shown::Fields(fields))
}
