//! Attributes in force: what marks have set, in the order of the keys' bytes.

ghost use Rattle.std.specs.Prelude.{◌≡◌, ◌<◌, length, IfOk, OnOk, IfSome, IfNone};
ghost use Rattle.std.specs.List.{remove};
ghost use Rattle.yd_any.specs.Keys.{is_same};
ghost use Rattle.yd_any.specs.Carried.{put};
ghost use Rattle.yd_any.specs.JsonView.{json_tree};
ghost use Rattle.yd_value.specs.View.{shown_fields};
ghost use Rattle.yd_shown.specs.Pieces.{with_attribute, without_key};
ghost use Rattle.yd_any.specs.Same.{same_fields};
ghost use Rattle.yd_modes.specs.Marks.{marks_fields, IsPlace};

use crate::fault::NoMemory;
use std::alloc::Global;
use std::cmp::Ordering;
use yd_any::{Json, Text, is_same_json};
use yd_value::{Shown, ShownFields};

/// An attribute in force, lent from the mark that set it.
#[derive(Clone, Copy)]
pub struct Mark<'a> {
    /// What is marked.
    pub key: &'a Text,
    /// How.
    pub value: &'a Json,
}

/// Where a key goes among marks.
#[derive(Clone, Copy)]
pub enum Place {
    /// It is the key of the mark there.
    At(usize),
    /// It goes before the mark there, or behind all.
    Before(usize),
}

/// Sets the mark's key to its value, or removes the key where the value is null. It takes time with
/// the attributes in force.
pub fn set_mark<'a>(marks: &mut Vec<Mark<'a>>, mark: Mark<'a>) -> Result<(), NoMemory>
    ensures { OnOk result (marks_fields marks.new.items ≡ with_attribute mark.entry.key.now
        (json_tree mark.entry.value.now) (marks_fields marks.old.items)) }
{
    match mark.value {
        Json::Null => {
            remove_mark(marks, mark.key);
            Ok(())
        }
        _ => put_mark(marks, mark),
    }
}

/// Puts a mark under its key, in the order of the keys.
fn put_mark<'a>(marks: &mut Vec<Mark<'a>>, mark: Mark<'a>) -> Result<(), NoMemory>
    ensures { OnOk result (marks_fields marks.new.items ≡ put mark.entry.key.now
        (json_tree mark.entry.value.now) (marks_fields marks.old.items)) }
{
    match place_of(marks, mark.key) {
        Place::At(i) => {
            marks[i] = mark;
            Ok(())
        }
        Place::Before(i) => {
            marks.insert(i, mark)?;
            Ok(())
        }
    }
}

/// Removes the mark under a key, where there is one.
fn remove_mark(marks: &mut Vec<Mark<'_>>, key: &Text)
    ensures { marks_fields marks.new.items ≡ without_key key.now (marks_fields marks.old.items) }
{
    if let Some(i) = find(marks, key) {
        let _mark = marks.remove(i);
    }
}

/// Where the key goes, in the order of the keys.
fn place_of(marks: &[Mark<'_>], key: &Text) -> Place
    ensures { IsPlace key.now marks.now result }
{
    for i in 0..marks.len() {
        match key.as_str().cmp(marks[i].key.as_str()) {
            Ordering::Less => return Place::Before(i),
            Ordering::Equal => return Place::At(i),
            Ordering::Greater => {}
        }
    }
    Place::Before(marks.len())
}

/// The place of the first mark with the key.
fn find(marks: &[Mark<'_>], key: &Text) -> Option<usize>
    ensures there { IfSome result (λ i. i < length marks.now) }
    ensures found { IfSome result (λ i. marks_fields (remove marks.now i)
        ≡ without_key key.now (marks_fields marks.now)) }
    ensures none { IfNone result (marks_fields marks.now
        ≡ without_key key.now (marks_fields marks.now)) }
{
    for i in 0..marks.len() {
        if is_key(key, marks[i].key) {
            return Some(i);
        }
    }
    None
}

/// The two keys are one.
fn is_key(key: &Text, other: &Text) -> bool
    ensures { result ≡ is_same key.now other.now }
{
    key.as_str().cmp(other.as_str()) == Ordering::Equal
}

/// Whether the attributes are the same.
pub fn are_same(a: &[Mark<'_>], b: &[Mark<'_>]) -> bool
    ensures { result ≡ same_fields (marks_fields a.now) (marks_fields b.now) }
{
    if a.len() != b.len() {
        return false;
    }
    for i in 0..a.len() {
        if a[i].key.as_str() != b[i].key.as_str() || !is_same_json(a[i].value, b[i].value) {
            return false;
        }
    }
    true
}

/// The attributes as fields, in memory of their own.
pub fn fields_of(alloc: Global, marks: &[Mark<'_>]) -> Result<ShownFields, NoMemory>
    ensures { IfOk result (λ fields. shown_fields fields ≡ marks_fields marks.now) }
{
    let mut fields = ShownFields::new(alloc);
    for mark in marks {
        let key = mark.key.copy()?;
        let value = Shown::of_json(alloc, mark.value)?;
        fields.push((key, value))?;
    }
    Ok(fields)
}

/// The attributes once more.
pub fn copy_marks<'a>(alloc: Global, marks: &[Mark<'a>]) -> Result<Vec<Mark<'a>>, NoMemory>
    ensures { IfOk result (λ copy. copy.items ≡ marks.now) }
{
    let copy = Vec::from_slice(alloc, marks)?;
    Ok(copy)
}
