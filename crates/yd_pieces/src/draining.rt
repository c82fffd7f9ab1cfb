//! Taking elements in a row out of single pieces, and what it does to the whole.

ghost use Rattle.std.specs.Prelude.{◌≡◌, ◌<◌, ◌≤◌, ◌+◌, ◌-◌, ◌++◌, All, HoldsAt, length, take, vec_capacity};
ghost use Rattle.std.specs.List.{remove_range};
ghost use Rattle.yd_pieces.specs.Pieces.{joined, IsFilled};

use crate::seeking::seek;

/// Takes elements from a place of a piece on out, at most so many. It answers how many.
fn drain_in<T: Drop>(piece: &mut Vec<T>, at: usize, most: usize) -> usize
    requires inside { at < length piece.old.items }
    requires some { 0 < most }
    ensures some { (0 < result) × (result ≤ most) }
    ensures within { at + result ≤ length piece.old.items }
    ensures done { piece.new.items ≡ remove_range piece.old.items at (at + result) }
    ensures capacity { vec_capacity piece.new ≡ vec_capacity piece.old }
{
    let count = most.min(piece.len() - at);
    piece.drain(at..at + count);
    count
}

/// The same, and takes the piece out where none is left.
fn drain_at<T: Drop>(pieces: &mut Vec<Vec<T>>, i: usize, at: usize, most: usize) -> usize
    requires filled { All IsFilled pieces.old.items }
    requires bound { i < length pieces.old.items }
    requires inside { HoldsAt (λ piece. at < length piece.items) pieces.old.items i }
    requires some { 0 < most }
    ensures some { (0 < result) × (result ≤ most) }
    ensures within { length (joined (take i pieces.old.items)) + at + result ≤
        length (joined pieces.old.items) }
    ensures done { joined pieces.new.items ≡
        remove_range (joined pieces.old.items) (length (joined (take i pieces.old.items)) + at)
        (length (joined (take i pieces.old.items)) + at + result) }
    ensures kept { All IsFilled pieces.new.items }
{
    let count = drain_in(&mut pieces[i], at, most);
    if pieces[i].is_empty() {
        pieces.remove(i);
    }
    count
}

/// Takes elements from a place of the whole on out, at most so many: those that lie in one piece.
fn drain_within<T: Drop>(pieces: &mut Vec<Vec<T>>, at: usize, most: usize) -> usize
    requires filled { All IsFilled pieces.old.items }
    requires inside { at < length (joined pieces.old.items) }
    requires some { 0 < most }
    ensures some { (0 < result) × (result ≤ most) }
    ensures within { at + result ≤ length (joined pieces.old.items) }
    ensures done { joined pieces.new.items ≡
        remove_range (joined pieces.old.items) at (at + result) }
    ensures kept { All IsFilled pieces.new.items }
{
    let (i, place) = seek(pieces, at);
    drain_at(pieces, i, place, most)
}

/// Takes elements from a place of the pieces and the last one on out, at most so many: those that lie
/// in one piece.
pub fn drain_from<T: Drop>(
    pieces: &mut Vec<Vec<T>>,
    last: &mut Vec<T>,
    start: usize,
    at: usize,
    most: usize,
) -> usize
    requires filled { All IsFilled pieces.old.items }
    requires start { start ≡ length (joined pieces.old.items) }
    requires some { 0 < most }
    requires inside { at + most ≤ start + length last.old.items }
    ensures some { (0 < result) × (result ≤ most) }
    ensures done { joined pieces.new.items ++ last.new.items ≡
        remove_range (joined pieces.old.items ++ last.old.items) at (at + result) }
    ensures count { length (joined pieces.new.items ++ last.new.items) + result ≡
        length (joined pieces.old.items ++ last.old.items) }
    ensures kept { All IsFilled pieces.new.items }
    ensures room { vec_capacity last.old - length last.old.items ≤
        vec_capacity last.new - length last.new.items }
{
    if at < start {
        return drain_within(pieces, at, most);
    }
    drain_in(last, at - start, most)
}
