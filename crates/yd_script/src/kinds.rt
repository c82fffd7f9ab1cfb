//! Kinds of types, read.

ghost use Rattle.std.specs.Prelude.{◌≡◌, map};
ghost use Rattle.serde_json.specs.View.{view};
ghost use Rattle.yd_script.specs.Given.{Answers, element_in, kind_in, kind_of_word as word_kind};

use crate::fault::LineFault;
use serde_json::Value;
use std::alloc::Global;
use yd_any::Text;
use yd_ops::Kind;

/// `"array"`, `"map"`, `"text"`, `"fragment"`, `"elementtext"` or `["element",NAME]`
pub fn kind_of(alloc: Global, value: &Value) -> Result<Kind, LineFault>
    ensures { Answers (λ kind. kind) (kind_in (view value.now)) result }
{
    match value {
        Value::String(word) => kind_of_word(word.as_str()),
        Value::Array(items) => element_of(alloc, items.as_slice()),
        _ => Err(LineFault::BadLine),
    }
}

/// A kind that has no name of its own.
fn kind_of_word(word: &str) -> Result<Kind, LineFault>
    ensures { Answers (λ kind. kind) (word_kind word.now) result }
{
    if word == "array" {
        return Ok(Kind::Array);
    }
    if word == "map" {
        return Ok(Kind::Map);
    }
    if word == "text" {
        return Ok(Kind::Text);
    }
    if word == "fragment" {
        return Ok(Kind::Fragment);
    }
    if word == "elementtext" {
        return Ok(Kind::ElementText);
    }
    Err(LineFault::BadLine)
}

/// `["element",NAME]`
fn element_of(alloc: Global, items: &[Value]) -> Result<Kind, LineFault>
    ensures { Answers (λ kind. kind) (element_in (map view items.now)) result }
{
    match items {
        [word, name] => match (word.as_str(), name.as_str()) {
            (Some(word), Some(name)) => {
                if word != "element" {
                    return Err(LineFault::BadLine);
                }
                let name = Text::copy_of(alloc, name)?;
                Ok(Kind::Element(name))
            }
            _ => Err(LineFault::BadLine),
        },
        _ => Err(LineFault::BadLine),
    }
}
