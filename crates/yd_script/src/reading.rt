//! A line, read.

ghost use Rattle.std.specs.Prelude.{◌≡◌, IfOk, map};
ghost use Rattle.serde_json.specs.Errors.{IsMemory};
ghost use Rattle.serde_json.specs.View.{view};
ghost use Rattle.yd_script.specs.Given.{Answers};
ghost use Rattle.yd_script.specs.Line.{IsValidChange, IsValidLine, change_of as change_seen, line_of};
ghost use Rattle.yd_script.specs.Reading.{alone as line_alone, change_in, changes_in, line_in, line_in_data, line_in_list, line_of_word as word_line, text_change_in};
ghost use Rattle.yd_script.specs.declared.fault.LineFault.TheVariants.{NoMemory, BadLine};

use crate::arguments::{
    child_of, delete_of, embed_of, format_of, insert_of, push_of, set_of, settype_of, unset_of,
};
use crate::fault::LineFault;
use crate::line::{Change, Line};
use crate::places::{insert_at_of, mark_of};
use crate::targets::target_of;
use serde_json::Value;
use std::alloc::Global;

/// The line that a text is (own; the text is JSON as `serde_json` reads it). Where a growth finds no
/// memory that is answered, and else `BadLine` just where the text is no line.
pub fn read_line(alloc: Global, text: &str) -> Result<Line, LineFault>
    ensures line { Answers line_of (line_in text.now) result }
    ensures valid { IfOk result (λ line. IsValidLine (line_of line)) }
{
    match Value::from_str(alloc, text) {
        Ok(value) => line_of_value(alloc, &value),
        Err(error) => Err(text_fault(&error)),
    }
}

/// Why a text was not read.
fn text_fault(error: &serde_json::Error) -> LineFault
    ensures memory { IsMemory error.now → result ≡ NoMemory }
    ensures text { ¬ IsMemory error.now → result ≡ BadLine }
{
    if error.is_memory() {
        LineFault::NoMemory
    } else {
        LineFault::BadLine
    }
}

fn line_of_value(alloc: Global, value: &Value) -> Result<Line, LineFault>
    ensures line { Answers line_of (line_in_data (view value.now)) result }
    ensures valid { IfOk result (λ line. IsValidLine (line_of line)) }
{
    match value {
        Value::Array(items) => line_of_list(alloc, items.as_slice()),
        _ => Err(LineFault::BadLine),
    }
}

fn line_of_list(alloc: Global, items: &[Value]) -> Result<Line, LineFault>
    ensures line { Answers line_of (line_in_list (map view items.now)) result }
    ensures valid { IfOk result (λ line. IsValidLine (line_of line)) }
{
    match items {
        [word, rest @ ..] => match word.as_str() {
            Some(word) => line_of_word(alloc, word, rest),
            None => Err(LineFault::BadLine),
        },
        _ => Err(LineFault::BadLine),
    }
}

fn line_of_word(alloc: Global, word: &str, rest: &[Value]) -> Result<Line, LineFault>
    ensures line { Answers line_of (word_line word.now (map view rest.now)) result }
    ensures valid { IfOk result (λ line. IsValidLine (line_of line)) }
{
    if word == "mark" {
        return mark_of(alloc, rest);
    }
    if word == "insertat" {
        return insert_at_of(alloc, rest);
    }
    if word == "undo" {
        return alone(Line::Undo, rest);
    }
    if word == "redo" {
        return alone(Line::Redo, rest);
    }
    changes_of(alloc, word, rest)
}

/// A line of a word alone.
fn alone(line: Line, rest: &[Value]) -> Result<Line, LineFault>
    requires { IsValidLine (line_of line) }
    ensures line { Answers line_of (line_alone (line_of line) (map view rest.now)) result }
    ensures valid { IfOk result (λ line. IsValidLine (line_of line)) }
{
    match rest {
        [] => Ok(line),
        _ => Err(LineFault::BadLine),
    }
}

/// `TARGET,..`
fn changes_of(alloc: Global, word: &str, rest: &[Value]) -> Result<Line, LineFault>
    ensures line { Answers line_of (changes_in word.now (map view rest.now)) result }
    ensures valid { IfOk result (λ line. IsValidLine (line_of line)) }
{
    match rest {
        [target, rest @ ..] => {
            let change = change_of(alloc, word, rest)?;
            let target = target_of(alloc, target)?;
            Ok(Line::Change { target, change })
        }
        _ => Err(LineFault::BadLine),
    }
}

fn change_of(alloc: Global, word: &str, rest: &[Value]) -> Result<Change, LineFault>
    ensures change { Answers change_seen (change_in word.now (map view rest.now)) result }
    ensures valid { IfOk result (λ change. IsValidChange (change_seen change)) }
{
    if word == "push" {
        return push_of(alloc, rest);
    }
    if word == "child" {
        return child_of(alloc, rest);
    }
    if word == "set" {
        return set_of(alloc, rest);
    }
    if word == "settype" {
        return settype_of(alloc, rest);
    }
    if word == "unset" {
        return unset_of(alloc, rest);
    }
    text_change_of(alloc, word, rest)
}

fn text_change_of(alloc: Global, word: &str, rest: &[Value]) -> Result<Change, LineFault>
    ensures change { Answers change_seen (text_change_in word.now (map view rest.now)) result }
    ensures valid { IfOk result (λ change. IsValidChange (change_seen change)) }
{
    if word == "insert" {
        return insert_of(alloc, rest);
    }
    if word == "embed" {
        return embed_of(alloc, rest);
    }
    if word == "delete" {
        return delete_of(rest);
    }
    if word == "format" {
        return format_of(alloc, rest);
    }
    Err(LineFault::BadLine)
}
