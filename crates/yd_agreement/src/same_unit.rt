//! When two units hold the same.

ghost use Rattle.std.specs.Prelude.{◌≡◌, ◌<◌, Some, None, get_or, length};
ghost use Rattle.yd_any.specs.AnyView.{any_tree};
ghost use Rattle.yd_any.specs.JsonView.{json_tree};
ghost use Rattle.yd_grouping.specs.Sameness.{same_content, same_kind, same_value};
ghost use Rattle.yd_ops.specs.Operation.{any_unit, bytes, deleted_unit, embedded, json_unit, mark, nested_type, text_unit};
ghost use Rattle.yd_ops.specs.Value.{len_of};
ghost use Rattle.yd_ops.specs.View.{content_value, unit_value};
ghost use Rattle.yd_ops.specs.declared.kinds.Kind.TheVariants.{Element, Hook};
ghost use Rattle.yd_agreement.specs.Units.{unit_of};

use yd_any::{Any, Blob, Json, Text, is_same_any, is_same_json};
use yd_ops::{Content, JsonUnit, Kind};

/// Unit `i` of one content holds the same as unit `j` of another one.
pub fn is_same_unit(a: &Content, i: u64, b: &Content, j: u64) -> bool
    requires one { i < len_of (content_value a.now) }
    requires other { j < len_of (content_value b.now) }
    ensures { result ≡ same_content (unit_of (content_value a.now) i) (unit_of (content_value b.now) j) }
{
    match a {
        Content::Json(units) => is_json_at(b, j, &units.as_slice()[i as usize]),
        Content::Binary(bytes) => is_binary(b, j, bytes),
        Content::Str(units) => is_text_at(b, j, units.unit(i).unwrap_or(0)),
        Content::Embed(value) => is_embed(b, j, value),
        Content::Format { key, value } => is_format(b, j, key, value),
        Content::Nested(kind) => is_nested(b, j, kind),
        Content::Any(values) => is_any_at(b, j, value_at(values.as_slice(), i)),
        Content::Deleted(_) => is_deleted(b, j),
    }
}

/// Unit `j` is this unit of text.
fn is_text_at(content: &Content, j: u64, unit: u16) -> bool
    requires { j < len_of (content_value content.now) }
    ensures { result ≡ same_content (text_unit unit) (unit_of (content_value content.now) j) }
{
    match content {
        Content::Str(units) => unit == units.unit(j).unwrap_or(0),
        _ => false,
    }
}

/// Unit `j` is this any-value.
fn is_any_at(content: &Content, j: u64, value: &Any) -> bool
    requires { j < len_of (content_value content.now) }
    ensures { result
        ≡ same_content (any_unit (any_tree value.now)) (unit_of (content_value content.now) j) }
{
    match content {
        Content::Any(values) => is_same_any(value, value_at(values.as_slice(), j)),
        _ => false,
    }
}

/// The value at a place.
fn value_at(values: &[Any], j: u64) -> &Any
    requires { j < length values.now }
    ensures { result.now ≡ get_or values.now j result.now }
{
    &values[j as usize]
}

/// Unit `j` is this JSON unit.
fn is_json_at(content: &Content, j: u64, unit: &JsonUnit) -> bool
    requires { j < len_of (content_value content.now) }
    ensures { result
        ≡ same_content (json_unit (unit_value unit.now)) (unit_of (content_value content.now) j) }
{
    match content {
        Content::Json(units) => is_same_json_unit(unit, &units.as_slice()[j as usize]),
        _ => false,
    }
}

/// Two JSON units are the same.
fn is_same_json_unit(a: &JsonUnit, b: &JsonUnit) -> bool
    ensures { result ≡ same_value (unit_value a.now) (unit_value b.now) }
{
    match a {
        JsonUnit::Undefined => is_undefined(b),
        JsonUnit::Value(value) => is_value(b, value),
    }
}

/// The JSON unit is `undefined`.
fn is_undefined(unit: &JsonUnit) -> bool
    ensures { result ≡ same_value None (unit_value unit.now) }
{
    match unit {
        JsonUnit::Undefined => true,
        JsonUnit::Value(_) => false,
    }
}

/// The JSON unit is this value.
fn is_value(unit: &JsonUnit, value: &Json) -> bool
    ensures { result ≡ same_value (Some (json_tree value.now)) (unit_value unit.now) }
{
    match unit {
        JsonUnit::Undefined => false,
        JsonUnit::Value(other) => is_same_json(value, other),
    }
}

/// Unit `j` is this byte string.
fn is_binary(content: &Content, j: u64, blob: &Blob) -> bool
    requires { j < len_of (content_value content.now) }
    ensures { result ≡ same_content (bytes blob.now) (unit_of (content_value content.now) j) }
{
    match content {
        Content::Binary(other) => blob.as_slice() == other.as_slice(),
        _ => false,
    }
}

/// Unit `j` is this object in text.
fn is_embed(content: &Content, j: u64, value: &Json) -> bool
    requires { j < len_of (content_value content.now) }
    ensures { result
        ≡ same_content (embedded (json_tree value.now)) (unit_of (content_value content.now) j) }
{
    match content {
        Content::Embed(other) => is_same_json(value, other),
        _ => false,
    }
}

/// Unit `j` is this format mark.
fn is_format(content: &Content, j: u64, key: &Text, value: &Json) -> bool
    requires { j < len_of (content_value content.now) }
    ensures { result
        ≡ same_content (mark key.now (json_tree value.now)) (unit_of (content_value content.now) j) }
{
    match content {
        Content::Format {
            key: other_key,
            value: other,
        } => key.as_str() == other_key.as_str() && is_same_json(value, other),
        _ => false,
    }
}

/// Unit `j` is a nested type of this kind.
fn is_nested(content: &Content, j: u64, kind: &Kind) -> bool
    requires { j < len_of (content_value content.now) }
    ensures { result ≡ same_content (nested_type kind.now) (unit_of (content_value content.now) j) }
{
    match content {
        Content::Nested(other) => is_same_kind(kind, other),
        _ => false,
    }
}

/// Unit `j` is deleted.
fn is_deleted(content: &Content, j: u64) -> bool
    requires { j < len_of (content_value content.now) }
    ensures { result ≡ same_content deleted_unit (unit_of (content_value content.now) j) }
{
    match content {
        Content::Deleted(_) => true,
        _ => false,
    }
}

/// Two kinds of nested types are the same.
fn is_same_kind(a: &Kind, b: &Kind) -> bool
    ensures { result ≡ same_kind a.now b.now }
{
    match a {
        Kind::Array => matches!(b, Kind::Array),
        Kind::Map => matches!(b, Kind::Map),
        Kind::Text => matches!(b, Kind::Text),
        Kind::Element(name) => is_element(b, name),
        Kind::Fragment => matches!(b, Kind::Fragment),
        Kind::Hook(name) => is_hook(b, name),
        Kind::ElementText => matches!(b, Kind::ElementText),
    }
}

/// The kind is an element with this name.
fn is_element(kind: &Kind, name: &Text) -> bool
    ensures { result ≡ same_kind (Element name.now) kind.now }
{
    match kind {
        Kind::Element(other) => name.as_str() == other.as_str(),
        _ => false,
    }
}

/// The kind is a hook with this name.
fn is_hook(kind: &Kind, name: &Text) -> bool
    ensures { result ≡ same_kind (Hook name.now) kind.now }
{
    match kind {
        Kind::Hook(other) => name.as_str() == other.as_str(),
        _ => false,
    }
}
