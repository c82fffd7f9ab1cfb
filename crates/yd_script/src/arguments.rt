//! What goes with the word of a line, behind its target.

ghost use Rattle.std.specs.Prelude.{◌≡◌, IfOk, map};
ghost use Rattle.serde_json.specs.View.{view};
ghost use Rattle.yd_script.specs.Given.{Answers};
ghost use Rattle.yd_script.specs.Line.{IsValidChange, change_of};
ghost use Rattle.yd_script.specs.Reading.{child_in, delete_in, embed_in, format_in, insert_in, push_in, set_in, settype_in, unset_in};

use crate::fault::LineFault;
use crate::given::{any_of, json_of, number_of, values_of};
use crate::kinds::kind_of;
use crate::line::Change;
use serde_json::Value;
use std::alloc::Global;
use yd_any::Text;

/// `INDEX, TEXT`
pub fn insert_of(alloc: Global, rest: &[Value]) -> Result<Change, LineFault>
    ensures change { Answers change_of (insert_in (map view rest.now)) result }
    ensures valid { IfOk result (λ change. IsValidChange (change_of change)) }
{
    match rest {
        [index, text] => match (number_of(index), text.as_str()) {
            (Some(index), Some(text)) => {
                let text = Text::copy_of(alloc, text)?;
                Ok(Change::Insert { index, text })
            }
            _ => Err(LineFault::BadLine),
        },
        _ => Err(LineFault::BadLine),
    }
}

/// `INDEX, VALUE`
pub fn embed_of(alloc: Global, rest: &[Value]) -> Result<Change, LineFault>
    ensures change { Answers change_of (embed_in (map view rest.now)) result }
    ensures valid { IfOk result (λ change. IsValidChange (change_of change)) }
{
    match rest {
        [index, value] => match number_of(index) {
            Some(index) => {
                let value = json_of(alloc, value)?;
                Ok(Change::Embed { index, value })
            }
            None => Err(LineFault::BadLine),
        },
        _ => Err(LineFault::BadLine),
    }
}

/// `INDEX, LEN`
pub fn delete_of(rest: &[Value]) -> Result<Change, LineFault>
    ensures change { Answers change_of (delete_in (map view rest.now)) result }
    ensures valid { IfOk result (λ change. IsValidChange (change_of change)) }
{
    match rest {
        [index, len] => match (number_of(index), number_of(len)) {
            (Some(index), Some(len)) => { Ok(Change::Delete { index, len }) }
            _ => Err(LineFault::BadLine),
        },
        _ => Err(LineFault::BadLine),
    }
}

/// `INDEX, LEN, KEY, VALUE`
pub fn format_of(alloc: Global, rest: &[Value]) -> Result<Change, LineFault>
    ensures change { Answers change_of (format_in (map view rest.now)) result }
    ensures valid { IfOk result (λ change. IsValidChange (change_of change)) }
{
    match rest {
        [index, len, key, value] => match (number_of(index), number_of(len), key.as_str()) {
            (Some(index), Some(len), Some(key)) => {
                let value = json_of(alloc, value)?;
                let key = Text::copy_of(alloc, key)?;
                Ok(Change::Format {
                    index,
                    len,
                    key,
                    value,
                })
            }
            _ => Err(LineFault::BadLine),
        },
        _ => Err(LineFault::BadLine),
    }
}

/// `INDEX, [VALUE,..]`
pub fn push_of(alloc: Global, rest: &[Value]) -> Result<Change, LineFault>
    ensures change { Answers change_of (push_in (map view rest.now)) result }
    ensures valid { IfOk result (λ change. IsValidChange (change_of change)) }
{
    match rest {
        [index, values] => match number_of(index) {
            Some(index) => {
                let values = values_of(alloc, values)?;
                Ok(Change::Push { index, values })
            }
            None => Err(LineFault::BadLine),
        },
        _ => Err(LineFault::BadLine),
    }
}

/// `INDEX, KIND`
pub fn child_of(alloc: Global, rest: &[Value]) -> Result<Change, LineFault>
    ensures change { Answers change_of (child_in (map view rest.now)) result }
    ensures valid { IfOk result (λ change. IsValidChange (change_of change)) }
{
    match rest {
        [index, kind] => match number_of(index) {
            Some(index) => {
                let kind = kind_of(alloc, kind)?;
                Ok(Change::Child { index, kind })
            }
            None => Err(LineFault::BadLine),
        },
        _ => Err(LineFault::BadLine),
    }
}

/// `KEY, VALUE`
pub fn set_of(alloc: Global, rest: &[Value]) -> Result<Change, LineFault>
    ensures change { Answers change_of (set_in (map view rest.now)) result }
    ensures valid { IfOk result (λ change. IsValidChange (change_of change)) }
{
    match rest {
        [key, value] => match key.as_str() {
            Some(key) => {
                let value = any_of(alloc, value)?;
                let key = Text::copy_of(alloc, key)?;
                Ok(Change::Set { key, value })
            }
            None => Err(LineFault::BadLine),
        },
        _ => Err(LineFault::BadLine),
    }
}

/// `KEY, KIND`
pub fn settype_of(alloc: Global, rest: &[Value]) -> Result<Change, LineFault>
    ensures change { Answers change_of (settype_in (map view rest.now)) result }
    ensures valid { IfOk result (λ change. IsValidChange (change_of change)) }
{
    match rest {
        [key, kind] => match key.as_str() {
            Some(key) => {
                let kind = kind_of(alloc, kind)?;
                let key = Text::copy_of(alloc, key)?;
                Ok(Change::SetType { key, kind })
            }
            None => Err(LineFault::BadLine),
        },
        _ => Err(LineFault::BadLine),
    }
}

/// `KEY`
pub fn unset_of(alloc: Global, rest: &[Value]) -> Result<Change, LineFault>
    ensures change { Answers change_of (unset_in (map view rest.now)) result }
    ensures valid { IfOk result (λ change. IsValidChange (change_of change)) }
{
    match rest {
        [key] => match key.as_str() {
            Some(key) => {
                let key = Text::copy_of(alloc, key)?;
                Ok(Change::Unset { key })
            }
            None => Err(LineFault::BadLine),
        },
        _ => Err(LineFault::BadLine),
    }
}
