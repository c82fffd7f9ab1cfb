//! Changes of single pieces, and what they do to the whole.

ghost use Rattle.std.specs.Prelude.{◌≡◌, ◌<◌, ◌≤◌, ◌+◌, ◌-◌, ◌++◌, [], All, HoldsAt, length, take, drop, insert, remove, set, slice_index_or, vec_capacity, OnOk, OnErr, IfOk, IfErr};
ghost use Rattle.yd_pieces.specs.Pieces.{joined, IsFilled};

use crate::seeking::seek;
use std::alloc::{AllocError, AllocFailed};
use std::mem;

/// A piece with so many elements is cut in two before one more goes in. No contract rests on it.
pub const FULL: usize = 512;

/// Cuts the piece at an index in two halves, where memory is there.
fn cut<T: Drop>(pieces: &mut Vec<Vec<T>>, i: usize) -> Result<(), AllocError>
    requires filled { All IsFilled pieces.old.items }
    requires bound { i < length pieces.old.items }
    requires long { HoldsAt (λ piece. 1 < length piece.items) pieces.old.items i }
    ensures same { joined pieces.new.items ≡ joined pieces.old.items }
    ensures kept { All IsFilled pieces.new.items }
{
    pieces.reserve(1)?;
    let piece = &mut pieces[i];
    let half = piece.len() / 2;
    let tail = piece.split_off(half)?;
    let _ = pieces.insert(i + 1, tail);
    Ok(())
}

/// Puts an item in front of the element at a place of a piece.
fn insert_at<T>(
    pieces: &mut Vec<Vec<T>>,
    i: usize,
    at: usize,
    item: T,
) -> Result<(), AllocFailed<T>>
    requires filled { All IsFilled pieces.old.items }
    requires bound { i < length pieces.old.items }
    requires inside { HoldsAt (λ piece. at < length piece.items) pieces.old.items i }
    ensures done { OnOk result (joined pieces.new.items ≡
        insert (joined pieces.old.items) (length (joined (take i pieces.old.items)) + at) item) }
    ensures unchanged { OnErr result (joined pieces.new.items ≡ joined pieces.old.items) }
    ensures kept { All IsFilled pieces.new.items }
    ensures value_returned { IfErr result (λ failed. failed.value ≡ item) }
{
    pieces[i].insert(at, item)
}

/// Puts an item in front of the element at a place of the whole.
pub fn insert_within<T: Drop>(
    pieces: &mut Vec<Vec<T>>,
    at: usize,
    item: T,
) -> Result<(), AllocFailed<T>>
    requires filled { All IsFilled pieces.old.items }
    requires inside { at < length (joined pieces.old.items) }
    ensures done { OnOk result (joined pieces.new.items ≡
        insert (joined pieces.old.items) at item) }
    ensures unchanged { OnErr result (joined pieces.new.items ≡ joined pieces.old.items) }
    ensures kept { All IsFilled pieces.new.items }
    ensures value_returned { IfErr result (λ failed. failed.value ≡ item) }
{
    let (i, place) = seek(pieces, at);
    if pieces[i].len() < FULL {
        return insert_at(pieces, i, place, item);
    }
    if cut(pieces, i).is_err() {
        return Err(AllocFailed { value: item });
    }
    let (i, place) = seek(pieces, at);
    insert_at(pieces, i, place, item)
}

/// Takes the element at a place of a piece out, and the piece where it was the only one.
fn remove_at<T: Drop>(pieces: &mut Vec<Vec<T>>, i: usize, at: usize) -> T
    requires filled { All IsFilled pieces.old.items }
    requires bound { i < length pieces.old.items }
    requires inside { HoldsAt (λ piece. at < length piece.items) pieces.old.items i }
    ensures value { result ≡
        slice_index_or (joined pieces.old.items) (length (joined (take i pieces.old.items)) + at) result }
    ensures done { joined pieces.new.items ≡
        remove (joined pieces.old.items) (length (joined (take i pieces.old.items)) + at) }
    ensures kept { All IsFilled pieces.new.items }
{
    let item = pieces[i].remove(at);
    if pieces[i].is_empty() {
        pieces.remove(i);
    }
    item
}

/// Takes the element at a place of the whole out.
pub fn remove_within<T: Drop>(pieces: &mut Vec<Vec<T>>, at: usize) -> T
    requires filled { All IsFilled pieces.old.items }
    requires inside { at < length (joined pieces.old.items) }
    ensures value { result ≡ slice_index_or (joined pieces.old.items) at result }
    ensures done { joined pieces.new.items ≡ remove (joined pieces.old.items) at }
    ensures kept { All IsFilled pieces.new.items }
{
    let (i, place) = seek(pieces, at);
    remove_at(pieces, i, place)
}

/// Puts the last piece, which is not empty, behind the others, and begins a new one with so much room.
pub fn close<T: Drop>(
    pieces: &mut Vec<Vec<T>>,
    last: &mut Vec<T>,
    room: usize,
) -> Result<(), AllocError>
    requires filled { All IsFilled pieces.old.items }
    requires last { 0 < length last.old.items }
    ensures done { OnOk result (
        (joined pieces.new.items ≡ joined pieces.old.items ++ last.old.items)
        × (last.new.items ≡ [])) }
    ensures room { OnOk result (room ≤ vec_capacity last.new) }
    ensures kept { All IsFilled pieces.new.items }
    ensures unchanged { OnErr result (
        (joined pieces.new.items ≡ joined pieces.old.items) × (last.new ≡ last.old)) }
{
    let fresh = Vec::with_capacity(*pieces.allocator(), room)?;
    pieces.reserve(1)?;
    let _ = pieces.push(mem::replace(last, fresh));
    Ok(())
}

/// Puts an item in front of the element at a place of the pieces and the last one, or at the end.
pub fn insert_into<T: Drop>(
    pieces: &mut Vec<Vec<T>>,
    last: &mut Vec<T>,
    start: usize,
    at: usize,
    item: T,
) -> Result<(), AllocFailed<T>>
    requires filled { All IsFilled pieces.old.items }
    requires start { start ≡ length (joined pieces.old.items) }
    requires inside { at ≤ start + length last.old.items }
    ensures done { OnOk result (joined pieces.new.items ++ last.new.items ≡
        insert (joined pieces.old.items ++ last.old.items) at item) }
    ensures count { OnOk result (length (joined pieces.new.items ++ last.new.items) ≡
        length (joined pieces.old.items ++ last.old.items) + 1) }
    ensures unchanged { OnErr result (joined pieces.new.items ++ last.new.items ≡
        joined pieces.old.items ++ last.old.items) }
    ensures kept { All IsFilled pieces.new.items }
    ensures value_returned { IfErr result (λ failed. failed.value ≡ item) }
{
    if at < start {
        insert_within(pieces, at, item)?;
        return Ok(());
    }
    last.insert(at - start, item)?;
    Ok(())
}

/// Takes the element at a place of the pieces and the last one out.
pub fn remove_from<T: Drop>(
    pieces: &mut Vec<Vec<T>>,
    last: &mut Vec<T>,
    start: usize,
    at: usize,
) -> T
    requires filled { All IsFilled pieces.old.items }
    requires start { start ≡ length (joined pieces.old.items) }
    requires inside { at < start + length last.old.items }
    ensures value { result ≡ slice_index_or (joined pieces.old.items ++ last.old.items) at result }
    ensures done { joined pieces.new.items ++ last.new.items ≡
        remove (joined pieces.old.items ++ last.old.items) at }
    ensures count { length (joined pieces.new.items ++ last.new.items) + 1 ≡
        length (joined pieces.old.items ++ last.old.items) }
    ensures kept { All IsFilled pieces.new.items }
    ensures room { vec_capacity last.old - length last.old.items ≤
        vec_capacity last.new - length last.new.items }
{
    if at < start {
        return remove_within(pieces, at);
    }
    last.remove(at - start)
}

/// Puts an item in place of the element at a place of the whole.
fn set_within<T: Drop>(pieces: &mut Vec<Vec<T>>, at: usize, item: T)
    requires filled { All IsFilled pieces.old.items }
    requires inside { at < length (joined pieces.old.items) }
    ensures done { joined pieces.new.items ≡ set (joined pieces.old.items) at item }
    ensures kept { All IsFilled pieces.new.items }
{
    let (i, place) = seek(pieces, at);
    let piece = &mut pieces[i];
    piece[place] = item;
}

/// Puts an item in place of the element at a place of the pieces and the last one.
pub fn set_in<T: Drop>(
    pieces: &mut Vec<Vec<T>>,
    last: &mut Vec<T>,
    start: usize,
    at: usize,
    item: T,
)
    requires filled { All IsFilled pieces.old.items }
    requires start { start ≡ length (joined pieces.old.items) }
    requires inside { at < start + length last.old.items }
    ensures done { joined pieces.new.items ++ last.new.items ≡
        set (joined pieces.old.items ++ last.old.items) at item }
    ensures count { length (joined pieces.new.items ++ last.new.items) ≡
        length (joined pieces.old.items ++ last.old.items) }
    ensures kept { All IsFilled pieces.new.items }
    ensures room { vec_capacity last.old - length last.old.items ≤
        vec_capacity last.new - length last.new.items }
{
    if at < start {
        set_within(pieces, at, item);
    } else {
        last[at - start] = item;
    }
}
