//! The list in pieces.

ghost use Rattle.std.specs.List.{remove_range};
ghost use Rattle.std.specs.List.Sorted.{IsPartitionPoint, IsPartitionedBy};
ghost use Rattle.yd_pieces.specs.Pieces.{IsBoundary, IsLastPassed};
ghost use Rattle.std.specs.Prelude.{true, false, take, drop, ◌≡◌, ◌<◌, ◌≤◌, ◌+◌, ◌++◌, ◌∷◌, [], length, filter, insert, remove, set, slice_index_or, option_copied, OnOk, OnErr, IfOk, IfErr, IsOk};

use crate::cutting::{FULL, close, insert_into, remove_from, set_in};
use crate::draining::drain_from;
use crate::keeping::keep;
use crate::searching::{Test, front, point};
use crate::seeking::{read, rest_of_piece};
use crate::walking::PiecesIter;
use std::alloc::{AllocError, AllocFailed, Global};
use std::marker::Model;

/// The greatest length, 2^53 - 1, which no machine reaches. A growth past it finds no memory.
pub const MOST: usize = 9007199254740991;

/// A list of elements. Behind it there are vectors of some 512 elements, one after another, so that an
/// insertion or a removal moves no more than that, and how many vectors there are. Pushes go into the
/// last one, which alone may be longer. Pieces that lost many elements are not joined.
///
/// Contracts see its elements, `items`, and its `room`: how many pushes cannot fail.
#[derive(Drop)]
pub struct Pieces<T: Drop> {
    pieces: Vec<Vec<T>>,
    last: Vec<T>,
    len: usize,
}

impl<T: Drop> Model for Pieces<T> {
    ghost use Rattle.std.specs.Prelude.{◌-◌, ◌++◌, min, vec_len, vec_capacity};
    ghost use Rattle.yd_pieces.specs.declared.pieces.TheConstants.{MOST};
    ghost use Rattle.yd_pieces.specs.Pieces.{Listed, listed_code, joined, ArePieces};

    ghost Value = { Listed T };

    ghost coded = { listed_code T.code };

    ghost view = { λ it. record {
      items = joined it.pieces.items ++ it.last.items;
      room = min (vec_capacity it.last - vec_len it.last) (MOST - it.len);
    } };

    ghost invariant = { λ it. ArePieces it.pieces.items it.last.items it.len MOST };
}

impl<T: Drop> Pieces<T> {
    /// The empty list, with no room. It takes no memory.
    pub fn new(alloc: Global) -> Pieces<T>
        ensures { result.items ≡ [] }
    {
        Pieces {
            pieces: Vec::new(alloc),
            last: Vec::new(alloc),
            len: 0,
        }
    }

    /// The list of one piece, which is the vector itself: it takes no memory. A vector that is longer
    /// than a piece comes back.
    pub fn of_piece(alloc: Global, piece: Vec<T>) -> Result<Pieces<T>, Vec<T>>
        ensures done { IfOk result (λ list. list.items ≡ piece.items) }
        ensures value_returned { IfErr result (λ back. back ≡ piece) }
    {
        if piece.len() > FULL {
            return Err(piece);
        }
        Ok(Pieces {
            pieces: Vec::new(alloc),
            len: piece.len(),
            last: piece,
        })
    }

    /// The allocator that gives the list its memory.
    pub fn allocator(&self) -> &Global {
        self.pieces.allocator()
    }

    /// How many elements there are.
    pub fn len(&self) -> usize
        ensures { result ≡ length self.now.items }
    {
        self.len
    }

    /// The element at a place, counted from 0. It takes time with the number of pieces before it.
    pub fn get(&self, at: usize) -> &T
        requires { at < length self.now.items }
        ensures { result.now ≡ slice_index_or self.now.items at result.now }
    {
        let start = self.len - self.last.len();
        read(&self.pieces, &self.last, start, at)
    }

    /// The elements in their order. It takes no memory, and a step takes the same time at each place.
    pub fn iter(&self) -> PiecesIter<'_, T>
        ensures { result ≡ self.now.items }
    {
        PiecesIter::of(&self.pieces, &self.last)
    }

    /// Where the elements that pass end: how many stand before the first that does not, where those
    /// that pass stand before the others. Otherwise it is some place of which the element in front
    /// passes, and the one behind does not. It is a bisection over pieces and then in one, and a
    /// sum over the pieces before it, if it is not in the last one.
    pub fn partition_point<P: Test<T>>(&self, test: &P) -> usize
        ensures bound { result ≤ length self.now.items }
        ensures boundary { IsBoundary (P.passes test.now) self.now.items result }
        ensures partitioned { IsPartitionedBy (P.passes test.now) self.now.items →
            IsPartitionPoint (λ y. P.passes test.now y ≡ true)
            (λ y. P.passes test.now y ≡ false) self.now.items result }
    {
        let before = self.len - self.last.len();
        point(&self.pieces, &self.last, before, test)
    }

    /// The element in front of such a place as `partition_point` answers, and None where that is the
    /// start. It is a bisection over pieces and then in one, and takes no sum.
    pub fn last_passed<P: Test<T>>(&self, test: &P) -> Option<&T>
        ensures { IsLastPassed (P.passes test.now) self.now.items (option_copied result) }
    {
        front(&self.pieces, &self.last, test)
    }

    /// The elements from a place on that lie together in memory, one or more. So a list is read
    /// piece by piece.
    pub fn piece_from(&self, at: usize) -> &[T]
        requires { at < length self.now.items }
        ensures some { 0 < length result.now }
        ensures within { at + length result.now ≤ length self.now.items }
        ensures piece { result.now ≡ take (length result.now) (drop at self.now.items) }
    {
        let start = self.len - self.last.len();
        rest_of_piece(&self.pieces, &self.last, start, at)
    }

    /// Puts an element at the end. While there is room, this takes no memory. It moves no element.
    pub fn push(&mut self, item: T) -> Result<(), AllocFailed<T>>
        ensures done { OnOk result (self.new.items ≡ self.old.items ++ item ∷ []) }
        ensures unchanged { OnErr result (self.new.items ≡ self.old.items) }
        ensures value_returned { IfErr result (λ failed. failed.value ≡ item) }
        ensures room { self.old.room ≤ self.new.room + 1 }
        ensures succeeds { 0 < self.old.room → IsOk result }
    {
        if self.len == MOST {
            return Err(AllocFailed { value: item });
        }
        if self.last.len() >= FULL
            && self.last.len() == self.last.capacity()
            && close(&mut self.pieces, &mut self.last, FULL).is_err()
        {
            return Err(AllocFailed { value: item });
        }
        self.last.push(item)?;
        self.len += 1;
        Ok(())
    }

    /// Puts an element in place of the one at a place. It takes no memory, and time with the number of
    /// pieces before it.
    pub fn set(&mut self, at: usize, item: T)
        requires { at < length self.old.items }
        ensures done { self.new.items ≡ set self.old.items at item }
        ensures room { self.old.room ≤ self.new.room }
    {
        let start = self.len - self.last.len();
        set_in(&mut self.pieces, &mut self.last, start, at, item);
    }

    /// Makes room for so many pushes, or finds no memory for it. No room is lost.
    pub fn reserve(&mut self, more: usize) -> Result<(), AllocError>
        ensures items { self.new.items ≡ self.old.items }
        ensures room { OnOk result (more ≤ self.new.room) }
        ensures kept { self.old.room ≤ self.new.room }
        ensures succeeds { more ≤ self.old.room → IsOk result }
    {
        if more > MOST - self.len {
            return Err(AllocError);
        }
        if self.last.len() < FULL || self.last.capacity() - self.last.len() >= more {
            return self.last.reserve(more);
        }
        close(&mut self.pieces, &mut self.last, more)
    }

    /// Puts an element in front of the one at a place, or at the end. It moves the elements of one
    /// piece, and takes time with the number of pieces before it. Of room nothing is said after it.
    pub fn insert(&mut self, at: usize, item: T) -> Result<(), AllocFailed<T>>
        requires { at ≤ length self.old.items }
        ensures done { OnOk result (self.new.items ≡ insert self.old.items at item) }
        ensures unchanged { OnErr result (self.new.items ≡ self.old.items) }
        ensures value_returned { IfErr result (λ failed. failed.value ≡ item) }
    {
        if self.len == MOST {
            return Err(AllocFailed { value: item });
        }
        if self.last.len() >= FULL && close(&mut self.pieces, &mut self.last, 0).is_err() {
            return Err(AllocFailed { value: item });
        }
        let start = self.len - self.last.len();
        insert_into(&mut self.pieces, &mut self.last, start, at, item)?;
        self.len += 1;
        Ok(())
    }

    /// Takes the element at a place out. It moves the elements of one piece, takes no memory, and takes
    /// time with the number of pieces before it.
    pub fn remove(&mut self, at: usize) -> T
        requires { at < length self.old.items }
        ensures value { result ≡ slice_index_or self.old.items at result }
        ensures done { self.new.items ≡ remove self.old.items at }
        ensures room { self.old.room ≤ self.new.room }
    {
        let start = self.len - self.last.len();
        let item = remove_from(&mut self.pieces, &mut self.last, start, at);
        self.len -= 1;
        item
    }

    /// Takes elements from a place on out, at most so many: those that lie in one piece. It answers how
    /// many, which is one or more. It takes no memory.
    fn drain_some(&mut self, at: usize, most: usize) -> usize
        requires some { 0 < most }
        requires inside { at + most ≤ length self.old.items }
        ensures some { (0 < result) × (result ≤ most) }
        ensures done { self.new.items ≡ remove_range self.old.items at (at + result) }
        ensures room { self.old.room ≤ self.new.room }
    {
        let start = self.len - self.last.len();
        let count = drain_from(&mut self.pieces, &mut self.last, start, at, most);
        self.len -= count;
        count
    }

    /// Takes the elements between two places out. It takes no memory, and for each piece that they lie
    /// in time with its elements and with the number of pieces.
    pub fn drain(&mut self, from: usize, to: usize)
        requires { (from ≤ to) × (to ≤ length self.old.items) }
        ensures done { self.new.items ≡ remove_range self.old.items from to }
        ensures room { self.old.room ≤ self.new.room }
    {
        drain_each(self, from, to);
    }

    /// Keeps the elements that pass, and drops the others. It takes no memory, and time with the
    /// number of elements.
    pub fn retain<P: Test<T>>(&mut self, test: &P)
        ensures kept { self.new.items ≡ filter (P.passes test.now) self.old.items }
        ensures room { self.old.room ≤ self.new.room }
    {
        self.len = keep(&mut self.pieces, &mut self.last, test);
    }
}

/// Takes the elements between two places out, piece by piece.
fn drain_each<T: Drop>(list: &mut Pieces<T>, from: usize, to: usize)
    requires { (from ≤ to) × (to ≤ length list.old.items) }
    ensures done { list.new.items ≡ remove_range list.old.items from to }
    ensures room { list.old.room ≤ list.new.room }
{
    let mut left = to - from;
    while left > 0 {
        left -= list.drain_some(from, left);
    }
}
